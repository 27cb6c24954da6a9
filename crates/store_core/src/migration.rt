//! The stays of tables of version 1 are filled in, in a transaction.
ghost use Rattle.std.specs.Prelude.{◌≡◌, ◌∷◌, [], IfErr, IfOk, OnOk};
ghost use Rattle.sqlite.specs.Held.{state};
ghost use Rattle.desk_model.specs.IsDesk.{ids};
ghost use Rattle.desk_model.specs.Stays as spec;
ghost use Rattle.store_tables.specs.Stands.{OnlyStaysChange};
ghost use Rattle.store_tables.specs.declared.fault.StoreFault.{StoreFault};
ghost use Rattle.store_core.specs.Migrating.{MismatchMeansBadSource, BringsUp, FillsStays, RefusesOn};
ghost use Rattle.store_core.specs.Migrating.{RunsOn};

use desk_core::Entry;
use desk_model::stays_of;
use hours_core::Stay;
use sqlite::{Alter, Transaction};
use std::alloc::Global;
use store_tables::StoreFault;
use store_tables::tables::entry::entries_inside;
use store_tables::tables::meta::set_version;
use store_tables::tables::request::numbers::numbers_inside;
use store_tables::tables::stay::put_stays;

/// The stays that a history tells.
fn stays_told(alloc: Global, entries: &[Entry]) -> Result<Vec<Stay>, StoreFault>
    ensures ok { IfOk result (λ stays. stays.items ≡ spec.stays_of entries.now) }
    ensures fault { IfErr result (λ e. e ≡ StoreFault.Refused) }
{
    match stays_of(alloc, entries) {
        Ok(stays) => Ok(stays),
        Err(_) => Err(StoreFault::Refused),
    }
}

/// Fills in the stays of one request, by its history.
fn fill_one<S: Alter>(alloc: Global, tx: &mut Transaction<'_, S>, id: u32) -> Result<(), StoreFault>
    ensures same_reference { tx.new.conn.ghost_name ≡ tx.old.conn.ghost_name }
    ensures fills { FillsStays (λ desk. id ∷ [])
        (state S.Store tx.old.conn.now) (state S.Store tx.new.conn.now) result }
    ensures beside { OnOk result
        (OnlyStaysChange (state S.Store tx.old.conn.now) (state S.Store tx.new.conn.now)) }
    ensures on { RunsOn (state S.Store tx.old.conn.now) (state S.Store tx.new.conn.now) result }
    ensures refuses { RefusesOn
        (state S.Store tx.old.conn.now) (state S.Store tx.new.conn.now) result }
    ensures blames { MismatchMeansBadSource
        (state S.Store tx.old.conn.now) (state S.Store tx.new.conn.now) result }
{
    let entries = entries_inside(alloc, tx, id)?;
    let stays = stays_told(alloc, entries.as_slice())?;
    put_stays(tx, id, stays.as_slice())
}

/// Fills in the stays of requests.
fn fill_each<S: Alter>(
    alloc: Global,
    tx: &mut Transaction<'_, S>,
    ids: &[u32],
) -> Result<(), StoreFault>
    ensures same_reference { tx.new.conn.ghost_name ≡ tx.old.conn.ghost_name }
    ensures fills { FillsStays (λ desk. ids.now)
        (state S.Store tx.old.conn.now) (state S.Store tx.new.conn.now) result }
    ensures on { RunsOn (state S.Store tx.old.conn.now) (state S.Store tx.new.conn.now) result }
    ensures refuses { RefusesOn
        (state S.Store tx.old.conn.now) (state S.Store tx.new.conn.now) result }
    ensures blames { MismatchMeansBadSource
        (state S.Store tx.old.conn.now) (state S.Store tx.new.conn.now) result }
{
    for id in ids {
        fill_one(alloc, tx, *id)?;
    }
    Ok(())
}

/// Fills in the stays of all requests.
fn fill_stays<S: Alter>(alloc: Global, tx: &mut Transaction<'_, S>) -> Result<(), StoreFault>
    ensures same_reference { tx.new.conn.ghost_name ≡ tx.old.conn.ghost_name }
    ensures fills { FillsStays ids
        (state S.Store tx.old.conn.now) (state S.Store tx.new.conn.now) result }
    ensures on { RunsOn (state S.Store tx.old.conn.now) (state S.Store tx.new.conn.now) result }
    ensures refuses { RefusesOn
        (state S.Store tx.old.conn.now) (state S.Store tx.new.conn.now) result }
    ensures blames { MismatchMeansBadSource
        (state S.Store tx.old.conn.now) (state S.Store tx.new.conn.now) result }
{
    let ids = numbers_inside(alloc, tx)?;
    fill_each(alloc, tx, ids.as_slice())
}

/// Fills in the stays of all requests, and sets version 2.
pub(crate) fn migrate<S: Alter>(
    alloc: Global,
    tx: &mut Transaction<'_, S>,
) -> Result<(), StoreFault>
    ensures same_reference { tx.new.conn.ghost_name ≡ tx.old.conn.ghost_name }
    ensures brings { BringsUp
        (state S.Store tx.old.conn.now) (state S.Store tx.new.conn.now) result }
    ensures on { RunsOn (state S.Store tx.old.conn.now) (state S.Store tx.new.conn.now) result }
    ensures refuses { RefusesOn
        (state S.Store tx.old.conn.now) (state S.Store tx.new.conn.now) result }
    ensures blames { MismatchMeansBadSource
        (state S.Store tx.old.conn.now) (state S.Store tx.new.conn.now) result }
{
    fill_stays(alloc, tx)?;
    set_version(tx)
}
