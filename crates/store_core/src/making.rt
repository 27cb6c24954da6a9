//! Making the tables, in a transaction.
ghost use Rattle.std.specs.Prelude.{◌≡◌, ◌≢◌, ℕ, IfErr, IfOk, map, OnErr, OnOk, Option, ⊤};
ghost use Rattle.sqlite.specs.Held.{state};
ghost use Rattle.sqlite.specs.State.{HasCleanDisk};
ghost use Rattle.store_tables.specs.Calls.{KeepsConnection, StatementRuns, WasClean};
ghost use Rattle.desk_model.specs.Desk.{Desk};
ghost use Rattle.desk_model.specs.IsDesk.{IsDesk};
ghost use Rattle.desk_model.specs.declared.rows.RequestRow.{RequestRow};
ghost use Rattle.store_tables.specs.Contents.{Contents, contents_of, first_contents_of};
ghost use Rattle.store_tables.specs.Contents.{table_texts};
ghost use Rattle.store_tables.specs.Making.{IsKnown};
ghost use Rattle.store_tables.specs.Stands.{RolledBack, InTransaction, HoldsNow, KeepsCommitted};
ghost use Rattle.store_tables.specs.declared.fault.StoreFault.{StoreFault};
ghost use Rattle.store_core.specs.Migrating.{MismatchMeansUnknownName, BringsPart, Completes, Grows, HoldsPart};
ghost use Rattle.store_core.specs.Migrating.{HoldsUnnumbered, MismatchesInMaking, NeedsKnown};
ghost use Rattle.store_core.specs.Migrating.{LeavesInside, LeavesPresent, NeedsVersion, RefusesKnown};
ghost use Rattle.store_tables.specs.Seen.{seen};

use crate::version::bring_up;
use sqlite::{Alter, Transaction};
use std::alloc::Global;
use store_tables::tables::TABLES;
use store_tables::transaction::{finish, run};
use store_tables::{StoreFault, Tables};

/// Makes the tables that are missing, by these statements.
fn make_tables<S: Alter>(tx: &mut Transaction<'_, S>, texts: &[&str]) -> Result<(), StoreFault>
    ensures same_reference { tx.new.conn.ghost_name ≡ tx.old.conn.ghost_name }
    ensures grows { map (λ text. text.now) texts.now ≡ table_texts →
        OnOk result (Grows (state S.Store tx.old.conn.now) (state S.Store tx.new.conn.now)) }
    ensures runs { StatementRuns (λ done. ⊤)
        (state S.Store tx.old.conn.now) (state S.Store tx.new.conn.now) result }
{
    for sql in texts {
        let _ = run(tx, sql, &[])?;
    }
    Ok(())
}

/// Makes the tables that are missing, and brings them to the present version.
fn make_all<S: Alter>(alloc: Global, tx: &mut Transaction<'_, S>) -> Result<(), StoreFault>
    ensures same_reference { tx.new.conn.ghost_name ≡ tx.old.conn.ghost_name }
    ensures numbered { (c : Contents) → HoldsUnnumbered c (state S.Store tx.old.conn.now) →
        OnOk result (HoldsNow c (state S.Store tx.new.conn.now)) }
    ensures there { (c : Contents) → c.version ≢ 1 → HoldsPart c (state S.Store tx.old.conn.now) →
        OnOk result (HoldsNow c (state S.Store tx.new.conn.now)) }
    ensures brings { (desk : Desk) → IsDesk desk → (due : RequestRow → Option ℕ) →
        HoldsPart (first_contents_of due desk) (state S.Store tx.old.conn.now) →
        OnOk result (HoldsNow (contents_of due desk) (state S.Store tx.new.conn.now)) }
    ensures keeps { KeepsCommitted (state S.Store tx.old.conn.now) (state S.Store tx.new.conn.now) }
    ensures goes_on { InTransaction (state S.Store tx.old.conn.now) →
        OnOk result (InTransaction (state S.Store tx.new.conn.now)) }
    ensures known { (c : Contents) → HoldsPart c (state S.Store tx.old.conn.now) →
        HasCleanDisk (state S.Store tx.new.conn.now) →
        IfOk result (λ done. IsKnown c.version) }
    ensures wrong { (c : Contents) → HoldsPart c (state S.Store tx.old.conn.now) →
        HasCleanDisk (state S.Store tx.new.conn.now) →
        IfErr result (λ e. e ≡ StoreFault.WrongVersion → ¬ IsKnown c.version) }
    ensures refused { (c : Contents) → HoldsUnnumbered c (state S.Store tx.old.conn.now) →
        HasCleanDisk (state S.Store tx.new.conn.now) →
        IfErr result (λ e. e ≡ StoreFault.Refused) }
    ensures refuses { (c : Contents) → IsKnown c.version →
        HoldsPart c (state S.Store tx.old.conn.now) → HasCleanDisk (state S.Store tx.new.conn.now) →
        IfErr result (λ e. e ≡ StoreFault.Refused) }
    ensures honest { WasClean (state S.Store tx.old.conn.now) (state S.Store tx.new.conn.now) }
    ensures lasts { KeepsConnection (state S.Store tx.old.conn.now) (state S.Store tx.new.conn.now) }
    ensures mismatch { MismatchesInMaking
        (state S.Store tx.old.conn.now) (state S.Store tx.new.conn.now) result }
    ensures blames { MismatchMeansUnknownName
        (state S.Store tx.old.conn.now) (state S.Store tx.new.conn.now) result }
    ensures over { NeedsVersion
        (state S.Store tx.old.conn.now) (state S.Store tx.new.conn.now) result }
    ensures alone { LeavesInside
        (state S.Store tx.old.conn.now) (state S.Store tx.new.conn.now) result }
{
    make_tables(tx, &TABLES)?;
    bring_up(alloc, tx)
}

/// Makes the tables that are missing, and brings them to the present version, in one transaction.
pub(crate) fn make_schema<S: Alter>(alloc: Global, tables: &mut Tables<S>) -> Result<(), StoreFault>
    ensures completed { Completes (seen S.Store tables.old) (seen S.Store tables.new) result }
    ensures brings { BringsPart (seen S.Store tables.old) (seen S.Store tables.new) result }
    ensures over { NeedsVersion (seen S.Store tables.old) (seen S.Store tables.new) result }
    ensures alone { LeavesPresent (seen S.Store tables.old) (seen S.Store tables.new) result }
    ensures back { OnErr result
        (RolledBack (seen S.Store tables.old) (seen S.Store tables.new)) }
    ensures honest { WasClean (seen S.Store tables.old) (seen S.Store tables.new) }
    ensures lasts { KeepsConnection (seen S.Store tables.old) (seen S.Store tables.new) }
    ensures version { NeedsKnown (seen S.Store tables.old) (seen S.Store tables.new) result }
    ensures refuses { RefusesKnown (seen S.Store tables.old) (seen S.Store tables.new) result }
    ensures blames { MismatchMeansUnknownName (seen S.Store tables.old) (seen S.Store tables.new) result }
    ensures mismatch { MismatchesInMaking
        (seen S.Store tables.old) (seen S.Store tables.new) result }
{
    let mut tx = tables.conn.transaction();
    make_all(alloc, &mut tx)?;
    finish(tx)
}
