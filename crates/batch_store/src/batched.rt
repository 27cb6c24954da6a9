//! Trees whose commits are kept back.
ghost use Rattle.std.specs.Prelude.{◌≡◌, ◌≢◌, ◌⊎◌, ◌+◌, ◌<◌, ℕ, true, false, Err, IfErr, IfOk, IsTrue, OnOk};
ghost use Rattle.sqlite_trees.specs.View.{IsClean};
ghost use Rattle.batch_store.specs.Held.{Holds, Holds-prop};

use sqlite_trees::error::StoreError;
use sqlite_trees::schema::Object;
use sqlite_trees::store::{Alter, Direction, Shape, Store};
use sqlite_value::row::Row;
use std::alloc::{AllocError, Global};

/// A store over another, in which several commits are one.
#[derive(Drop)]
pub struct Batched<S: Alter> {
    store: S,
    /// How many commits are one.
    every: u64,
    /// How many are missing for the next one.
    left: u64,
    /// How many savepoints are open, beside its own.
    depth: u64,
    /// Whether something was written since the last commit.
    written: bool,
    /// Whether commits were kept back that can't be made any more.
    lost: bool,
    ghost held: { Holds lost depth written (S.Store.view store) } by { Holds-prop lost depth written (S.Store.view store) },
}

impl<S: Alter> Batched<S> {
    ghost use Rattle.std.specs.Prelude.{◌^◌, ◌||◌};
    ghost use Rattle.sqlite.specs.Steps.{IsFresh};
    ghost use Rattle.batch_store.specs.Held.{Stands};
    ghost use Rattle.batch_store.specs.Seen.{Settles, is_due, view_of};

    /// A store that makes so many commits one, or the store itself, where it can't be.
    pub fn new(store: S, every: u64) -> Result<Batched<S>, S>
        requires { IsClean (S.Store.view store) → IsFresh (S.Store.view store) }
        ensures fresh { IfOk result (λ it. IsClean (view_of S.Store it) → IsFresh (view_of S.Store it)) }
        ensures trees { IfOk result (λ it. IsClean (view_of S.Store it) → IsClean (S.Store.view store)
            × ((view_of S.Store it).trees ≡ (S.Store.view store).trees)) }
        ensures begun { IfOk result (λ it. (it.every ≡ every) × (it.left ≡ every)) }
    {
        let mut store = store;
        match store.savepoint() {
            Ok(()) => Ok(Batched {
                store,
                every,
                left: every,
                depth: 0,
                written: false,
                lost: false,
            }),
            Err(_) => Err(store),
        }
    }

    /// Commits what was kept back, and gives the store below back: whether it is committed.
    pub fn finish(self) -> (bool, S)
        ensures { result.0 ≡ true → IsClean (S.Store.view result.1)
            → Stands (view_of S.Store self) (S.Store.view result.1) }
    {
        let is_lost = self.is_lost();
        let Batched {
            mut store,
            every: _,
            left: _,
            depth: _,
            written: _,
            lost: _,
        } = self;
        if is_lost {
            return (false, store);
        }
        match store.commit() {
            Ok(()) => (true, store),
            Err(_) => (false, store),
        }
    }

    /// Whether it is lost, or its transaction is broken.
    fn is_lost(&self) -> bool
        ensures { result ≡ false → (self.now.lost ≡ false) × (self.now.depth + 1 < 2 ^ 64)
            × (IsClean (S.Store.view self.now.store) → (S.Store.view self.now.store).is_broken ≡ false) }
    {
        self.lost || self.depth == u64::MAX || self.store.is_broken()
    }

    /// Whether as many commits are one by the next one.
    fn is_due(&self) -> bool
        ensures { result ≡ is_due S.Store self.now }
    {
        self.written && self.left <= 1
    }

    /// Whether the trees may be others than a commit left.
    fn is_unlike(&self) -> bool
        ensures { result ≡ false → (self.now.lost ≡ false) × (self.now.depth ≡ 0) × (self.now.written ≡ false)
            × (IsClean (S.Store.view self.now.store) → (S.Store.view self.now.store).is_broken ≡ false) }
    {
        self.lost || self.written || self.depth != 0 || self.store.is_broken()
    }

    /// Commits what was kept back and what was written since.
    fn commit_all(&mut self) -> Result<(), StoreError>
        requires kept { self.old.lost ≡ false }
        requires sound { IsClean (S.Store.view self.old.store) → (S.Store.view self.old.store).is_broken ≡ false }
        requires bare { self.old.depth ≡ 0 }
        requires due { IsTrue (is_due S.Store self.old) }
        ensures { Settles S.Store self.old self.new result }
    {
        match self.store.commit() {
            Ok(()) => {
                self.left = self.every;
                self.written = false;
                match self.store.savepoint() {
                    Ok(()) => Ok(()),
                    Err(_) => {
                        self.lost = true;
                        Ok(())
                    }
                }
            }
            Err(error) => {
                self.lost = true;
                Err(error)
            }
        }
    }

    /// Keeps back what was written since the last commit.
    fn keep_back(&mut self) -> Result<(), StoreError>
        requires kept { self.old.lost ≡ false }
        requires sound { IsClean (S.Store.view self.old.store) → (S.Store.view self.old.store).is_broken ≡ false }
        requires bare { self.old.depth ≡ 0 }
        requires early { is_due S.Store self.old ≡ false }
        ensures { Settles S.Store self.old self.new result }
    {
        match self.store.release() {
            Ok(()) => match self.store.savepoint() {
                Ok(()) => {
                    if self.written {
                        self.left -= 1;
                        self.written = false;
                    }
                    Ok(())
                }
                Err(error) => {
                    self.lost = true;
                    Err(error)
                }
            },
            Err(error) => {
                self.lost = true;
                Err(error)
            }
        }
    }
}

impl<S: Alter> Store for Batched<S> {
    ghost use Rattle.batch_store.specs.Seen.{Steps, faults_of, recovers_of, shielded_of, view_of};
    ghost use Rattle.batch_store.specs.Laws.{broken_at, empty_at, ordered_at, settled_at, shut_at, stays_at};
    ghost use Rattle.batch_store.specs.Laws.{survives_at, unaltered_at};

    ghost view = { view_of S.Store };

    ghost faults = { faults_of S.Store };

    ghost recovers = { recovers_of S.Store };

    ghost is_shielded = { shielded_of S.Store };

    ghost is_step = { Steps S.Store };

    ghost ordered = { ordered_at S.Store.ordered };

    ghost shut_if_dirty = { shut_at };

    ghost empty_if_dirty = { empty_at };

    ghost broken_if_shut = { broken_at };

    ghost settled = { settled_at };

    ghost stays = { stays_at };

    ghost survives = { survives_at };

    ghost unaltered = { unaltered_at };

    fn is_broken(&self) -> bool {
        self.lost || self.store.is_broken()
    }

    fn shape(&self, tree: u32) -> Shape {
        self.store.shape(tree)
    }

    fn tree_count(&self) -> u64 {
        self.store.tree_count()
    }

    fn reals(&self, tree: u32) -> u64 {
        self.store.reals(tree)
    }

    fn seek(
        &mut self,
        cursor: u16,
        tree: u32,
        key: &Row,
        direction: Direction,
    ) -> Result<(), StoreError> {
        if self.is_lost() {
            self.lost = true;
            return Err(StoreError::Broken);
        }
        match self.store.seek(cursor, tree, key, direction) {
            Ok(()) => Ok(()),
            Err(error) => {
                self.lost = true;
                Err(error)
            }
        }
    }

    fn next(&mut self, cursor: u16, row: &mut Row) -> Result<bool, StoreError> {
        if self.is_lost() {
            self.lost = true;
            return Err(StoreError::Broken);
        }
        match self.store.next(cursor, row) {
            Ok(found) => Ok(found),
            Err(error) => {
                self.lost = true;
                Err(error)
            }
        }
    }

    fn get(&mut self, table: u32, id: i64, row: &mut Row) -> Result<bool, StoreError> {
        if self.is_lost() {
            self.lost = true;
            return Err(StoreError::Broken);
        }
        match self.store.get(table, id, row) {
            Ok(found) => Ok(found),
            Err(error) => {
                self.lost = true;
                Err(error)
            }
        }
    }

    fn put(&mut self, table: u32, row: &Row) -> Result<(), StoreError> {
        if self.is_lost() {
            self.lost = true;
            return Err(StoreError::Broken);
        }
        self.written = true;
        match self.store.put(table, row) {
            Ok(()) => Ok(()),
            Err(error) => {
                self.lost = true;
                Err(error)
            }
        }
    }

    fn delete(&mut self, table: u32, id: i64) -> Result<(), StoreError> {
        if self.is_lost() {
            self.lost = true;
            return Err(StoreError::Broken);
        }
        self.written = true;
        match self.store.delete(table, id) {
            Ok(()) => Ok(()),
            Err(error) => {
                self.lost = true;
                Err(error)
            }
        }
    }

    fn insert(&mut self, index: u32, entry: &Row) -> Result<(), StoreError> {
        if self.is_lost() {
            self.lost = true;
            return Err(StoreError::Broken);
        }
        self.written = true;
        match self.store.insert(index, entry) {
            Ok(()) => Ok(()),
            Err(error) => {
                self.lost = true;
                Err(error)
            }
        }
    }

    fn remove(&mut self, index: u32, entry: &Row) -> Result<(), StoreError> {
        if self.is_lost() {
            self.lost = true;
            return Err(StoreError::Broken);
        }
        self.written = true;
        match self.store.remove(index, entry) {
            Ok(()) => Ok(()),
            Err(error) => {
                self.lost = true;
                Err(error)
            }
        }
    }

    fn commit(&mut self) -> Result<(), StoreError> {
        if self.is_lost() {
            self.lost = true;
            return Err(StoreError::Broken);
        }
        if self.depth != 0 {
            self.lost = true;
            return Err(StoreError::OutOfMemory);
        }
        if self.is_due() {
            self.commit_all()
        } else {
            self.keep_back()
        }
    }

    fn rollback(&mut self) {
        if self.is_unlike() {
            self.store.rollback();
            self.lost = true;
        }
    }

    fn savepoint(&mut self) -> Result<(), StoreError> {
        if self.is_lost() {
            self.lost = true;
            return Err(StoreError::Broken);
        }
        match self.store.savepoint() {
            Ok(()) => {
                self.depth += 1;
                Ok(())
            }
            Err(error) => {
                self.lost = true;
                Err(error)
            }
        }
    }

    fn release(&mut self) -> Result<(), StoreError> {
        if self.is_lost() {
            self.lost = true;
            return Err(StoreError::Broken);
        }
        if self.depth == 0 {
            return Ok(());
        }
        match self.store.release() {
            Ok(()) => {
                self.depth -= 1;
                Ok(())
            }
            Err(error) => {
                self.lost = true;
                Err(error)
            }
        }
    }

    fn rollback_to(&mut self) -> Result<(), StoreError> {
        if self.is_lost() {
            self.lost = true;
            return Err(StoreError::Broken);
        }
        if self.depth == 0 {
            return Ok(());
        }
        self.lost = true;
        Err(StoreError::OutOfMemory)
    }
}

impl<S: Alter> Alter for Batched<S> {
    ghost use Rattle.batch_store.specs.Laws.{listed_at};

    ghost listed = { listed_at S.Alter.listed };

    fn objects(&self, alloc: Global) -> Result<Vec<Row>, AllocError> {
        self.store.objects(alloc)
    }

    fn create(&mut self, _tree: u32, _object: &Object<'_>) -> Result<(), StoreError> {
        Err(StoreError::OutOfMemory)
    }

    fn destroy(&mut self, _tree: u32) -> Result<(), StoreError> {
        Err(StoreError::OutOfMemory)
    }

    fn relist(&mut self, _changes: &[(u32, Object<'_>)]) -> Result<(), StoreError> {
        Err(StoreError::OutOfMemory)
    }

    fn version(&self) -> u32 {
        self.store.version()
    }

    fn set_version(&mut self, _version: u32) -> Result<(), StoreError> {
        Err(StoreError::OutOfMemory)
    }
}
