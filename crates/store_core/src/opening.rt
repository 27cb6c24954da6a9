//! A store is opened, and its tables are made.
ghost use Rattle.std.specs.Prelude.{◌≡◌, ◌≢◌, false, IfErr, IfOk, None, OnErr};
ghost use Rattle.sqlite.specs.State.{HasCleanDisk};
ghost use Rattle.sqlite.specs.Steps.{over_memory};
ghost use Rattle.store_tables.specs.Calls.{Answers, AreLeft, KeepsConnection, LeavesTables, WasClean};
ghost use Rattle.store_tables.specs.Making.{IsBlank, IsOfMeta, MakesDesk, ReadsMeta, RefusesBlank};
ghost use Rattle.store_tables.specs.declared.fault.StoreFault.{StoreFault};
ghost use Rattle.store_core.specs.Migrating.{BringsPart, Completes, LeavesOthers, LeavesPresent};
ghost use Rattle.store_core.specs.Migrating.{MigratesDesk, MismatchesInMaking, NeedsVersion, RefusesKnown};
ghost use Rattle.store_core.specs.Migrating.{TellsVersion};
ghost use Rattle.store_core.specs.Seen.{connection_of, state_of};

use crate::making::make_schema;
use crate::store::Store;
use sqlite::{Alter, Connection, MemStore};
use std::alloc::Global;
use store_tables::tables::meta;
use store_tables::{StoreFault, Tables};

impl Store<MemStore> {
    /// A store in memory, without tables and without a limit on steps. `Refused` where out of
    /// memory.
    pub fn open_in_memory(alloc: Global) -> Result<Store<MemStore>, StoreFault>
        ensures blank { IfOk result (λ store. IsBlank (state_of over_memory store)) }
        ensures unlimited { IfOk result (λ store. (state_of over_memory store).step_limit ≡ None) }
        ensures fault { IfErr result (λ e. e ≡ StoreFault.Refused) }
    {
        match Connection::open_in_memory(alloc) {
            Ok(conn) => Ok(Store::adopt(conn)),
            Err(_) => Err(StoreFault::Refused),
        }
    }
}

impl<S: Alter> Store<S> {
    /// The store over a connection that is in no transaction, with its tables as they are. Takes no
    /// memory.
    pub fn adopt(conn: Connection<S>) -> Store<S>
        requires { conn.in_transaction ≡ false }
        ensures { connection_of S.Store result ≡ conn }
    {
        Store {
            tables: Tables { conn },
            ahead: None,
            filed: None,
        }
    }

    /// The connection under the store, with its tables as they are. Takes no memory.
    pub fn release(self) -> Connection<S>
        ensures same { result ≡ connection_of S.Store self }
        ensures idle { result.in_transaction ≡ false }
    {
        self.tables.conn
    }

    /// Makes the tables that are missing and, where there is no version, writes version 2. Of
    /// tables of version 1 it fills in the stays, by the histories, and sets version 2. All is in
    /// one transaction. `WrongVersion` where the tables are of another version, `Mismatch` where
    /// their version is no whole number, or, in tables of version 1, the number of a request or an entry
    /// is no value of its type, `Refused` where the store or memory refuses it. A fault leaves all
    /// tables as they were, whatever tables there are. Tables of version 2 keep their rows.
    pub fn create_schema(&mut self, alloc: Global) -> Result<(), StoreFault>
        ensures made { MakesDesk (state_of S.Store self.old) (state_of S.Store self.new) result }
        ensures migrated { MigratesDesk
            (state_of S.Store self.old) (state_of S.Store self.new) result }
        ensures kept { LeavesOthers (state_of S.Store self.old) (state_of S.Store self.new) }
        ensures brings { BringsPart
            (state_of S.Store self.old) (state_of S.Store self.new) result }
        ensures over { NeedsVersion
            (state_of S.Store self.old) (state_of S.Store self.new) result }
        ensures alone { LeavesPresent
            (state_of S.Store self.old) (state_of S.Store self.new) result }
        ensures completed { Completes
            (state_of S.Store self.old) (state_of S.Store self.new) result }
        ensures spared { OnErr result
            (AreLeft (state_of S.Store self.old) (state_of S.Store self.new)) }
        ensures honest { WasClean (state_of S.Store self.old) (state_of S.Store self.new) }
        ensures lasts { KeepsConnection (state_of S.Store self.old) (state_of S.Store self.new) }
        ensures version { TellsVersion
            (state_of S.Store self.old) (state_of S.Store self.new) result }
        ensures refuses { RefusesKnown
            (state_of S.Store self.old) (state_of S.Store self.new) result }
        ensures mismatch { MismatchesInMaking
            (state_of S.Store self.old) (state_of S.Store self.new) result }
    {
        make_schema(alloc, &mut self.tables)
    }

    /// The version that `meta` holds, where the first n of the tables are there, whatever rows
    /// stand elsewhere. `Refused` before `create_schema`, and where the store or memory refuses it,
    /// `Mismatch` where it is no number. All tables stay as they are.
    pub fn version(&mut self) -> Result<u32, StoreFault>
        ensures told { Answers (λ c n. n ≡ c.version)
            (state_of S.Store self.old) (state_of S.Store self.new) result }
        ensures blank { RefusesBlank
            (state_of S.Store self.old) (state_of S.Store self.new) result }
        ensures meta { ReadsMeta IsOfMeta
            (state_of S.Store self.old) (state_of S.Store self.new) result }
        ensures fault { IfErr result (λ e. e ≢ StoreFault.WrongVersion) }
        ensures kept { LeavesTables (state_of S.Store self.old) (state_of S.Store self.new) }
    {
        meta::version(&mut self.tables)
    }

    /// Whether the connection is open: a fault of the disk shuts it for good. `Refused` where the
    /// store or memory refuses to tell. The tables stay as they are.
    pub fn is_open(&mut self) -> Result<bool, StoreFault>
        ensures live { HasCleanDisk (state_of S.Store self.new)
            → IfOk result (λ live. live ≡ (state_of S.Store self.old).is_open) }
        ensures kept { LeavesTables (state_of S.Store self.old) (state_of S.Store self.new) }
        ensures fault { IfErr result (λ e. e ≡ StoreFault.Refused) }
    {
        meta::is_open(&mut self.tables)
    }
}
