//! The version of the tables, which are brought to the present one.
ghost use Rattle.std.specs.Prelude.{◌≡◌, ◌≢◌, IfErr, IfOk, None, OnOk, Some, pos};
ghost use Rattle.sqlite.specs.Held.{state};
ghost use Rattle.sqlite.specs.State.{HasCleanDisk};
ghost use Rattle.store_tables.specs.Calls.{AnswersInTransaction, QueryInTransaction};
ghost use Rattle.store_tables.specs.Contents.{Contents};
ghost use Rattle.store_tables.specs.Making.{BlamesMeta, IsKnown, LacksVersion, ShowsVersionOf};
ghost use Rattle.store_tables.specs.Making.{WrongInside};
ghost use Rattle.store_tables.specs.Making.{MismatchesInMeta};
ghost use Rattle.store_tables.specs.Stands.{HasTables, HoldsNow};
ghost use Rattle.store_tables.specs.declared.fault.StoreFault.{StoreFault};
ghost use Rattle.store_core.specs.Migrating.{BringsUp, IsBlamed, KeepsOthers, RefusesOn};
ghost use Rattle.store_core.specs.Migrating.{RunsOn};

use crate::migration::migrate;
use sqlite::{Alter, Transaction};
use std::alloc::Global;
use store_tables::StoreFault;
use store_tables::tables::meta::{add_version, version_inside};

/// The version that the tables hold, or none where `meta` has no row.
fn read_version<S: Alter>(tx: &mut Transaction<'_, S>) -> Result<Option<i64>, StoreFault>
    ensures same_reference { tx.new.conn.ghost_name ≡ tx.old.conn.ghost_name }
    ensures none { (c : Contents) → LacksVersion c (state S.Store tx.old.conn.now) →
        HasCleanDisk (state S.Store tx.new.conn.now) → IfOk result (λ v. v ≡ None) }
    ensures refused { (c : Contents) → LacksVersion c (state S.Store tx.old.conn.now) →
        HasCleanDisk (state S.Store tx.new.conn.now) →
        IfErr result (λ e. e ≡ StoreFault.Refused) }
    ensures one { AnswersInTransaction (λ c v. v ≡ Some (pos c.version))
        (state S.Store tx.old.conn.now) (state S.Store tx.new.conn.now) result }
    ensures looks { QueryInTransaction
        (state S.Store tx.old.conn.now) (state S.Store tx.new.conn.now) result }
    ensures refuses { RefusesOn
        (state S.Store tx.old.conn.now) (state S.Store tx.new.conn.now) result }
    ensures mismatch { MismatchesInMeta
        (state S.Store tx.old.conn.now) (state S.Store tx.new.conn.now) result }
    ensures shown { HasTables (state S.Store tx.old.conn.now) →
        HasCleanDisk (state S.Store tx.new.conn.now) →
        IfOk result (ShowsVersionOf (state S.Store tx.old.conn.now)) }
    ensures fault { IfErr result (λ e. e ≢ StoreFault.WrongVersion) }
{
    version_inside(tx)
}

/// Brings the tables to the present version: those that are new, and those of version 1, whose
/// stays are filled in. `WrongVersion` where they are of another one.
pub(crate) fn bring_up<S: Alter>(
    alloc: Global,
    tx: &mut Transaction<'_, S>,
) -> Result<(), StoreFault>
    ensures same_reference { tx.new.conn.ghost_name ≡ tx.old.conn.ghost_name }
    ensures numbered { (c : Contents) → LacksVersion c (state S.Store tx.old.conn.now) →
        OnOk result (HoldsNow c (state S.Store tx.new.conn.now)) }
    ensures there { (c : Contents) → c.version ≢ 1 →
        HoldsNow c (state S.Store tx.old.conn.now) →
        OnOk result (HoldsNow c (state S.Store tx.new.conn.now)) }
    ensures brings { BringsUp
        (state S.Store tx.old.conn.now) (state S.Store tx.new.conn.now) result }
    ensures on { RunsOn (state S.Store tx.old.conn.now) (state S.Store tx.new.conn.now) result }
    ensures known { AnswersInTransaction (λ c done. IsKnown c.version)
        (state S.Store tx.old.conn.now) (state S.Store tx.new.conn.now) result }
    ensures wrong { WrongInside
        (state S.Store tx.old.conn.now) (state S.Store tx.new.conn.now) result }
    ensures refused { (c : Contents) → LacksVersion c (state S.Store tx.old.conn.now) →
        HasCleanDisk (state S.Store tx.new.conn.now) →
        IfErr result (λ e. e ≡ StoreFault.Refused) }
    ensures refuses { (c : Contents) → IsKnown c.version →
        HoldsNow c (state S.Store tx.old.conn.now) → HasCleanDisk (state S.Store tx.new.conn.now) →
        IfErr result (λ e. e ≡ StoreFault.Refused) }
    ensures mismatch { IfErr result (λ e. e ≡ StoreFault.Mismatch →
        HasTables (state S.Store tx.old.conn.now) → HasCleanDisk (state S.Store tx.new.conn.now) →
        IsBlamed (state S.Store tx.old.conn.now)) }
    ensures blames { BlamesMeta
        (state S.Store tx.old.conn.now) (state S.Store tx.new.conn.now) result }
    ensures others { KeepsOthers
        (state S.Store tx.old.conn.now) (state S.Store tx.new.conn.now) result }
{
    match read_version(tx)? {
        None => add_version(tx),
        Some(1) => migrate(alloc, tx),
        Some(2) => Ok(()),
        Some(_) => Err(StoreFault::WrongVersion),
    }
}
