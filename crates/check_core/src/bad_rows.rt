//! The first row of the tables that is no value of its type.

ghost use Rattle.std.specs.Prelude.{◌≡◌, ◌≤◌, [], Decides, IfOk, IfSome, None};
ghost use Rattle.std.specs.Option.{option_map};
ghost use Rattle.std.specs.Str.{IsUtf8};
ghost use Rattle.sqlite.specs.Order.{column};
ghost use Rattle.sqlite.specs.declared.types.Value.TheVariants.{Null};
ghost use Rattle.sqlite.specs.State.{HasCleanDisk, Shown};
ghost use Rattle.sqlite_rules.specs.Lists.{Has};
ghost use Rattle.sqlite_value.specs.Value.{owned};
ghost use Rattle.store_tables.specs.Calls.{Leaves, LeavesTables};
ghost use Rattle.store_tables.specs.Seen.{seen};
ghost use Rattle.store_tables.specs.Values.{IsCount, IsMinute, IsText, count_value};
ghost use Rattle.check_core.specs.BadRows.{Finds, IsBadOf, IsFirst, IsFirstRow, IsMisfit};
ghost use Rattle.check_core.specs.Columns.{IsOf, IsWithin};
ghost use Rattle.check_core.specs.Columns as columns;
ghost use Rattle.check_core.specs.declared.columns.Version.{Version};

use crate::columns::{Kind, Table, Version, kinds_of, statement_of, tables_of};
use hours_core::Minute;
use sqlite::types::ValueRef;
use sqlite::{Alter, Row};
use std::alloc::AllocError;
use store_tables::{StoreFault, Tables};

/// A row that is no value of its type: of its table's columns those that are tested, and which is
/// the first that has a value of another kind, from 0.
#[derive(Drop)]
pub struct BadRow {
    pub table: Table,
    pub row: Row,
    pub at: usize,
}

/// The first row, by its key, of the first of the tables of this version, that is no value of its
/// type, if one is. `Refused` where the store or memory refuses it. The tables stay as they are.
#[tactic(auto, using(store_tables::proofs::Spared::joined, store_tables::proofs::Spared::unread))]
pub fn bad_row<S: Alter>(
    tables: &mut Tables<S>,
    version: Version,
) -> Result<Option<BadRow>, StoreFault>
    ensures first { Finds version (λ found db. IsFirst (columns.tables_of version)
        (option_map (λ bad. (bad.table, (bad.row, bad.at))) found) db)
        (seen S.Store tables.old) (seen S.Store tables.new) result }
    ensures kept { LeavesTables (seen S.Store tables.old) (seen S.Store tables.new) }
{
    let tested = tables_of(version);
    for table in tested {
        let found = bad_of(tables, *table)?;
        match found {
            Some((row, at)) => return Ok(Some(BadRow {
                table: *table,
                row,
                at,
            })),
            None => {}
        }
    }
    Ok(None)
}

/// The first bad row of a table, and where it has a value of another kind.
fn bad_of<S: Alter>(
    tables: &mut Tables<S>,
    table: Table,
) -> Result<Option<(Row, usize)>, StoreFault>
    ensures first { (version : Version) → Has (columns.tables_of version) table
        → Finds version (IsBadOf table)
        (seen S.Store tables.old) (seen S.Store tables.new) result }
    ensures kept { LeavesTables (seen S.Store tables.old) (seen S.Store tables.new) }
{
    let rows = rows_of(tables, table)?;
    match bad_among(kinds_of(table), rows.as_slice()) {
        Ok(found) => Ok(found),
        Err(_) => Err(StoreFault::Refused),
    }
}

/// What is tested of each row of a table.
fn rows_of<S: Alter>(tables: &mut Tables<S>, table: Table) -> Result<Vec<Row>, StoreFault>
    ensures shown { HasCleanDisk (seen S.Store tables.new) → IfOk result (λ rows.
        Shown (columns.statement_of table) [] (seen S.Store tables.old) (seen S.Store tables.new)
        rows.items) }
    ensures leaves { Leaves (seen S.Store tables.old) (seen S.Store tables.new) result }
{
    match tables.conn.query_all(statement_of(table), &[]) {
        Ok(rows) => Ok(rows),
        Err(_) => Err(StoreFault::Refused),
    }
}

/// The first of these rows with a value of another kind, and where it has it.
fn bad_among(kinds: &[Kind], rows: &[Row]) -> Result<Option<(Row, usize)>, AllocError>
    ensures { IfOk result (IsFirstRow kinds.now rows.now) }
{
    for row in rows {
        match misfit(kinds, row) {
            Some(at) => return Ok(Some((row.copy()?, at))),
            None => {}
        }
    }
    Ok(None)
}

/// Where a row has the first value that is of another kind than its column.
fn misfit(kinds: &[Kind], row: &Row) -> Option<usize>
    ensures { IsMisfit kinds.now 0 row.now result }
{
    let mut at = 0;
    for kind in kinds {
        if !is_at(*kind, row, at) {
            return Some(at);
        }
        at += 1;
    }
    None
}

/// Whether the value in a column is of this kind.
fn is_at(kind: Kind, row: &Row, at: usize) -> bool
    ensures { Decides result (IsOf kind (column row.now at)) }
{
    match row.get_ref(at) {
        Ok(value) => is_of(kind, value),
        Err(_) => is_of(kind, ValueRef::Null),
    }
}

/// Whether a value is of this kind.
fn is_of(kind: Kind, value: ValueRef<'_>) -> bool
    ensures { Decides result (IsOf kind (owned value.entry)) }
{
    match kind {
        Kind::Text => is_text(value),
        Kind::TextOrNone => is_null(value) || is_text(value),
        Kind::Minute => is_minute(value),
        Kind::MinuteOrNone => is_null(value) || is_minute(value),
        Kind::Number(low, high) => is_within(low, high, value),
    }
}

fn is_null(value: ValueRef<'_>) -> bool
    ensures { Decides result (owned value.entry ≡ Null) }
{
    match value {
        ValueRef::Null => true,
        _ => false,
    }
}

fn is_text(value: ValueRef<'_>) -> bool
    ensures { Decides result (IsText (owned value.entry)) }
{
    match value {
        ValueRef::Text(bytes) => is_utf8(bytes),
        _ => false,
    }
}

fn is_utf8(bytes: &[u8]) -> bool
    ensures { Decides result (IsUtf8 bytes.now) }
{
    match std::str::from_utf8(bytes) {
        Ok(_) => true,
        Err(_) => false,
    }
}

fn is_minute(value: ValueRef<'_>) -> bool
    ensures { Decides result (IsMinute (owned value.entry)) }
{
    match number_of(value) {
        Some(number) => Minute::new(number).is_some(),
        None => false,
    }
}

fn is_within(low: u32, high: u32, value: ValueRef<'_>) -> bool
    ensures { Decides result (IsWithin low high (owned value.entry)) }
{
    match number_of(value) {
        Some(number) => low <= number && number <= high,
        None => false,
    }
}

/// The number that a value is, if it is one of 32 bits.
fn number_of(value: ValueRef<'_>) -> Option<u32>
    ensures is { IfSome result (λ n. owned value.entry ≡ count_value n) }
    ensures none { result ≡ None → ¬ IsCount (owned value.entry) }
{
    match value {
        ValueRef::Int(number) => u32::try_from(number).ok(),
        _ => None,
    }
}
