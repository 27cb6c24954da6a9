//! Connections whose commits are kept back.
ghost use Rattle.std.specs.Prelude.{◌≡◌, false, IfSome};
ghost use Rattle.sqlite.specs.Held.{state};
ghost use Rattle.sqlite.specs.State.{HasCleanDisk};
ghost use Rattle.batch_store.specs.Seen.{over_batch};

use crate::batched::Batched;
use sqlite::{Alter, Connection};
use sqlite_trees::store::Store;
use std::alloc::Global;

/// A connection that makes so many commits one, over the tables as they were committed; none where
/// there is no memory for it, or the disk fails. No table is made by it.
pub fn keep_back<S: Alter + Drop>(
    alloc: Global,
    conn: Connection<S>,
    every: u64,
) -> Option<Connection<Batched<S>>>
    ensures closed { IfSome result (λ kept. kept.in_transaction ≡ false) }
    ensures tables { IfSome result (λ kept. HasCleanDisk (state (over_batch S.Store) kept)
        → (state (over_batch S.Store) kept).now.trees ≡ (state S.Store conn).committed.trees) }
{
    let store = conn.into_store();
    if store.is_broken() {
        return None;
    }
    match Batched::new(store, every) {
        Ok(batched) => match Connection::over(alloc, batched) {
            Ok(kept) => Some(kept),
            Err(_) => None,
        },
        Err(_) => None,
    }
}

/// Commits what was kept back, and gives a connection to the store below, whose tables are those
/// that were committed, kept back or not; none where there is no memory for it, or the disk fails.
pub fn make_all<S: Alter + Drop>(
    alloc: Global,
    conn: Connection<Batched<S>>,
) -> Option<Connection<S>>
    ensures closed { IfSome result (λ whole. whole.in_transaction ≡ false) }
    ensures tables { IfSome result (λ whole. HasCleanDisk (state S.Store whole)
        → (state S.Store whole).now.trees ≡ (state (over_batch S.Store) conn).committed.trees) }
{
    let (done, store) = conn.into_store().finish();
    if done {
        match Connection::over(alloc, store) {
            Ok(whole) => Some(whole),
            Err(_) => None,
        }
    } else {
        None
    }
}
