//! A transaction: one statement in it, and its end.
ghost use Rattle.std.specs.Prelude.{◌≡◌, false, List, IfErr, OnOk, OnErr};
ghost use Rattle.sqlite.specs.Held.{state};
ghost use Rattle.sqlite.specs.Values.{bound};
ghost use Rattle.store_tables.specs.Calls.{KeepsConnection, StatementRuns, WasClean};
ghost use Rattle.store_tables.specs.Contents.{Contents};
ghost use Rattle.store_tables.specs.Contents.Request.{Dated};
ghost use Rattle.store_tables.specs.Dated.{ShowDatedCommitted, ShowsDatedNow};
ghost use Rattle.store_tables.specs.Stands.{Commits, RolledBack, InTransaction, HoldsNow, HasRun, RanOnAny, HoldCommitted};
ghost use Rattle.store_tables.specs.declared.fault.StoreFault.{StoreFault};

use crate::fault::StoreFault;
use sqlite::types::ValueRef;
use sqlite::{Alter, Transaction};

/// Runs one statement, and tells how many rows it changed. `Refused` where the store or memory
/// refuses it.
#[tactic(auto, using(crate::proofs::Lasting::by))]
pub fn run<S: Alter>(
    tx: &mut Transaction<'_, S>,
    sql: &str,
    params: &[ValueRef<'_>],
) -> Result<usize, StoreFault>
    ensures same_reference { tx.new.conn.ghost_name ≡ tx.old.conn.ghost_name }
    ensures runs { StatementRuns (λ count. HasRun sql.now (bound params.now)
        (state S.Store tx.old.conn.now) (state S.Store tx.new.conn.now) count)
        (state S.Store tx.old.conn.now) (state S.Store tx.new.conn.now) result }
{
    match tx.execute(sql, params) {
        Ok(count) => Ok(count),
        Err(_) => Err(StoreFault::Refused),
    }
}

/// Runs a statement that changes one row. `Refused` where it changes none, or several.
pub(crate) fn run_on_one<S: Alter>(
    tx: &mut Transaction<'_, S>,
    sql: &str,
    params: &[ValueRef<'_>],
) -> Result<(), StoreFault>
    ensures same_reference { tx.new.conn.ghost_name ≡ tx.old.conn.ghost_name }
    ensures runs { StatementRuns (λ done. HasRun sql.now (bound params.now)
        (state S.Store tx.old.conn.now) (state S.Store tx.new.conn.now) 1)
        (state S.Store tx.old.conn.now) (state S.Store tx.new.conn.now) result }
{
    if run(tx, sql, params)? == 1 {
        Ok(())
    } else {
        Err(StoreFault::Refused)
    }
}

/// Runs a statement that changes one row, or none. `Refused` where it changes several.
pub(crate) fn run_on_any<S: Alter>(
    tx: &mut Transaction<'_, S>,
    sql: &str,
    params: &[ValueRef<'_>],
) -> Result<(), StoreFault>
    ensures same_reference { tx.new.conn.ghost_name ≡ tx.old.conn.ghost_name }
    ensures runs { StatementRuns (λ done. RanOnAny sql.now (bound params.now)
        (state S.Store tx.old.conn.now) (state S.Store tx.new.conn.now))
        (state S.Store tx.old.conn.now) (state S.Store tx.new.conn.now) result }
{
    if run(tx, sql, params)? < 2 {
        Ok(())
    } else {
        Err(StoreFault::Refused)
    }
}

/// Commits. `Refused` where the store refuses it: then what was committed before stays.
#[tactic(auto, using(crate::proofs::Lasting::by))]
pub fn finish<S: Alter>(tx: Transaction<'_, S>) -> Result<(), StoreFault>
    ensures ended { tx.exit.0.now.in_transaction ≡ false }
    ensures done { (c : Contents) → HoldsNow c (state S.Store tx.entry.conn.now) →
        OnOk result (HoldCommitted c (state S.Store tx.exit.0.now)) }
    ensures dated { (xs : List Dated) → ShowsDatedNow xs (state S.Store tx.entry.conn.now) →
        OnOk result (ShowDatedCommitted xs (state S.Store tx.exit.0.now)) }
    ensures shown { OnOk result
        (Commits (state S.Store tx.entry.conn.now) (state S.Store tx.exit.0.now)) }
    ensures back { InTransaction (state S.Store tx.entry.conn.now) →
        OnErr result (RolledBack (state S.Store tx.entry.conn.now) (state S.Store tx.exit.0.now)) }
    ensures honest { WasClean (state S.Store tx.entry.conn.now) (state S.Store tx.exit.0.now) }
    ensures lasts { KeepsConnection (state S.Store tx.entry.conn.now) (state S.Store tx.exit.0.now) }
    ensures fault { IfErr result (λ e. e ≡ StoreFault.Refused) }
{
    match tx.commit() {
        Ok(()) => Ok(()),
        Err(_) => Err(StoreFault::Refused),
    }
}
