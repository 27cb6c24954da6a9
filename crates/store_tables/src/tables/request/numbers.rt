//! The numbers of requests alone.
ghost use Rattle.std.specs.Prelude.{filter, ◌≡◌, []};
ghost use Rattle.store_tables.specs.Contents.{requests};
ghost use Rattle.store_tables.specs.Contents.Request.{by_due, by_id, id_of, is_due_before};
ghost use Rattle.store_tables.specs.Contents.Request.{number_of};
ghost use Rattle.store_tables.specs.Readings.{MismatchesInNumbers, Reads};
ghost use Rattle.store_tables.specs.Picked.{AreParts};
ghost use Rattle.store_tables.specs.declared.fault.StoreFault.{StoreFault};
ghost use Rattle.store_tables.specs.Seen.{seen};
ghost use Rattle.sqlite.specs.Held.{state};
ghost use Rattle.store_tables.specs.Calls.{AnswersInTransaction, QueryInTransaction};

use crate::columns::number;
use crate::fault::StoreFault;
use crate::query::select_all;
use crate::tables::Tables;
use sqlite::{Alter, Transaction};
use std::alloc::Global;

/// The numbers of the requests that are due before that moment: by due moment, and by number where
/// those are the same. `Mismatch` where one is no number, `Refused` where the store or memory
/// refuses it.
pub fn numbers_due_before<S: Alter>(
    alloc: Global,
    tables: &mut Tables<S>,
    at: u32,
) -> Result<Vec<u32>, StoreFault>
    ensures read { Reads (λ c ns.
        AreParts id_of by_due (filter (is_due_before at) c.dated) ns.items)
        (seen S.Store tables.old) (seen S.Store tables.new) result }
    ensures mismatch { MismatchesInNumbers
        (seen S.Store tables.old) (seen S.Store tables.new) result }
{
    select_all(
        alloc,
        tables,
        "SELECT id FROM request WHERE due < ?1 ORDER BY due, id",
        &[number(at)],
    )
}

/// The numbers of all requests, in their order. `Mismatch` where one is no number, `Refused` where
/// the store or memory refuses it.
pub fn numbers_inside<S: Alter>(
    alloc: Global,
    tx: &mut Transaction<'_, S>,
) -> Result<Vec<u32>, StoreFault>
    ensures same_reference { tx.new.conn.ghost_name ≡ tx.old.conn.ghost_name }
    ensures listed { AnswersInTransaction (λ c ns. AreParts number_of by_id (requests c) ns.items)
        (state S.Store tx.old.conn.now) (state S.Store tx.new.conn.now) result }
    ensures mismatch { MismatchesInNumbers
        (state S.Store tx.old.conn.now) (state S.Store tx.new.conn.now) result }
    ensures looks { QueryInTransaction
        (state S.Store tx.old.conn.now) (state S.Store tx.new.conn.now) result }
{
    select_all(alloc, tx, "SELECT id FROM request ORDER BY id", &[])
}
