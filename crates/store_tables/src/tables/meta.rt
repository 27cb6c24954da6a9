//! The table `meta`: the version of the tables, and whether the connection is open.
ghost use Rattle.std.specs.Prelude.{◌≡◌, ◌≢◌, ℕ, [], IfErr, IfOk, IfSome, None, Ok, OnOk, Some, false};
ghost use Rattle.std.specs.Prelude.{⊤};
ghost use Rattle.sqlite.specs.Order.{column};
ghost use Rattle.sqlite_rules.specs.Lists.{Has};
ghost use Rattle.store_tables.specs.Values.{IsNumberRow, count_value};
ghost use Rattle.store_tables.specs.Calls.{Answers, StatementChanges, StatementRuns, LeavesTables, shut};
ghost use Rattle.store_tables.specs.Making.{AreOfMeta, IsOfMeta, ReadsMeta, RefusesBlank};
ghost use Rattle.store_tables.specs.Making.{LacksVersion, ReadsVersion, ShowsVersion};
ghost use Rattle.store_tables.specs.declared.fault.StoreFault.{StoreFault};
ghost use Rattle.store_tables.specs.Seen.{seen};
ghost use Rattle.sqlite.specs.Held.{state};
ghost use Rattle.sqlite.specs.State.{HasCleanDisk};
ghost use Rattle.store_tables.specs.Contents.{Contents, set_version as with_version};
ghost use Rattle.store_tables.specs.Stands.{InTransaction, HoldsNow};

use crate::columns::number_at;
use crate::fault::StoreFault;
use crate::query::{Shows, select_one};
use crate::tables::Tables;
use crate::transaction::{run, run_on_one};
use sqlite::{Alter, Error, ErrorCode, Row, Transaction};

/// The statement that makes the table.
pub(crate) const TABLE: &str =
    "CREATE TABLE IF NOT EXISTS meta (one INTEGER PRIMARY KEY CHECK (one = 1), version INTEGER \
     NOT NULL) STRICT";

/// The rows of `meta`: each shows its version.
const VERSION: &str = "SELECT version FROM meta";

/// The version that the rows show, or none where there is no row. `Mismatch` where the row shows no
/// number, `Refused` where there are more rows.
fn version_in(rows: &[Row]) -> Result<Option<u32>, StoreFault>
    ensures none { rows.now ≡ [] → result ≡ Ok None }
    ensures empty { IfOk result (λ v. v ≡ None → rows.now ≡ []) }
    ensures one { (n : ℕ) → ShowsVersion n rows.now → IfOk result (λ v. v ≡ Some n) }
    ensures shown { IfOk result (λ v. IfSome v (λ n.
        (r : _) × Has rows.now r × (column r 0 ≡ count_value n))) }
    ensures mismatch { IfErr result (λ e. e ≡ StoreFault.Mismatch →
        (r : _) × Has rows.now r × ¬ IsNumberRow r) }
    ensures fault { IfErr result (λ e. e ≢ StoreFault.WrongVersion) }
{
    match rows {
        [] => Ok(None),
        [row] => match number_at(row, 0) {
            Ok(n) => Ok(Some(n)),
            Err(StoreFault::Mismatch) => Err(StoreFault::Mismatch),
            Err(_) => Err(StoreFault::Refused),
        },
        _ => Err(StoreFault::Refused),
    }
}

/// The rows of `meta`: each shows its version.
fn rows_version<S: Alter>(tables: &mut Tables<S>) -> Result<Vec<Row>, StoreFault>
    ensures shown { Answers (λ c rows. ShowsVersion c.version rows.items)
        (seen S.Store tables.old) (seen S.Store tables.new) result }
    ensures kept { LeavesTables (seen S.Store tables.old) (seen S.Store tables.new) }
    ensures blank { RefusesBlank (seen S.Store tables.old) (seen S.Store tables.new) result }
    ensures meta { ReadsMeta (λ s rows. AreOfMeta s rows.items)
        (seen S.Store tables.old) (seen S.Store tables.new) result }
    ensures fault { IfErr result (λ e. e ≡ StoreFault.Refused) }
{
    tables.select(VERSION, &[])
}

/// The version that `meta` holds, where the first n of the tables are there, whatever rows stand
/// elsewhere. `Refused` where `meta` is missing or has no row, `Mismatch` where its row shows no
/// number.
pub fn version<S: Alter>(tables: &mut Tables<S>) -> Result<u32, StoreFault>
    ensures told { Answers (λ c n. n ≡ c.version)
        (seen S.Store tables.old) (seen S.Store tables.new) result }
    ensures kept { LeavesTables (seen S.Store tables.old) (seen S.Store tables.new) }
    ensures blank { RefusesBlank (seen S.Store tables.old) (seen S.Store tables.new) result }
    ensures meta { ReadsMeta IsOfMeta
        (seen S.Store tables.old) (seen S.Store tables.new) result }
    ensures fault { IfErr result (λ e. e ≢ StoreFault.WrongVersion) }
{
    let rows = rows_version(tables)?;
    match version_in(rows.as_slice())? {
        Some(n) => Ok(n),
        None => Err(StoreFault::Refused),
    }
}

/// The version that a row of `meta` shows, or none where there is no row. `Mismatch` where the row
/// shows no whole number, `Refused` where the store or memory refuses it, or there are more rows.
pub fn version_inside<S: Alter>(tx: &mut Transaction<'_, S>) -> Result<Option<i64>, StoreFault>
    ensures same_reference { tx.new.conn.ghost_name ≡ tx.old.conn.ghost_name }
    ensures read { ReadsVersion
        (state S.Store tx.old.conn.now) (state S.Store tx.new.conn.now) result }
{
    select_one(tx, VERSION, &[])
}

/// Writes the present version, 2, where there is none. `Refused` where the store or memory refuses
/// it.
pub fn add_version<S: Alter>(tx: &mut Transaction<'_, S>) -> Result<(), StoreFault>
    ensures same_reference { tx.new.conn.ghost_name ≡ tx.old.conn.ghost_name }
    ensures numbered { (c : Contents) → LacksVersion c (state S.Store tx.old.conn.now) →
        OnOk result (HoldsNow c (state S.Store tx.new.conn.now)) }
    ensures runs { StatementRuns (λ done. ⊤)
        (state S.Store tx.old.conn.now) (state S.Store tx.new.conn.now) result }
    ensures goes_on { OnOk result (InTransaction (state S.Store tx.new.conn.now)) }
{
    let _ = run(tx, "INSERT INTO meta (one, version) VALUES (1, 2)", &[])?;
    Ok(())
}

/// Whether the connection under the tables is open: a fault of the disk shuts it for good. `Refused`
/// where the store or memory refuses to tell.
pub fn is_open<S: Alter>(tables: &mut Tables<S>) -> Result<bool, StoreFault>
    ensures live { HasCleanDisk (seen S.Store tables.new)
        → IfOk result (λ live. live ≡ (seen S.Store tables.old).is_open) }
    ensures kept { LeavesTables (seen S.Store tables.old) (seen S.Store tables.new) }
    ensures fault { IfErr result (λ e. e ≡ StoreFault.Refused) }
{
    match tables.conn.query_all(VERSION, &[]) {
        Ok(rows) => {
            drop(rows);
            Ok(true)
        }
        Err(error) => told_by(&error),
    }
}

/// What an error tells: that the connection is shut, or nothing.
fn told_by(error: &Error) -> Result<bool, StoreFault>
    ensures shut { IfOk result (λ live. (live ≡ false) × (error.now ≡ shut)) }
    ensures fault { IfErr result (λ e. e ≡ StoreFault.Refused) }
{
    match error {
        Error::SqliteFailure(ErrorCode::Closed) => Ok(false),
        _ => Err(StoreFault::Refused),
    }
}

/// Sets the version to 2, the present one. `Refused` where there is none, or the store or memory
/// refuses it.
pub fn set_version<S: Alter>(tx: &mut Transaction<'_, S>) -> Result<(), StoreFault>
    ensures same_reference { tx.new.conn.ghost_name ≡ tx.old.conn.ghost_name }
    ensures set { StatementChanges (λ c. with_version c 2)
        (state S.Store tx.old.conn.now) (state S.Store tx.new.conn.now) result }
{
    run_on_one(tx, "UPDATE meta SET version = 2", &[])
}
