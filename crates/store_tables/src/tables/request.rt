//! The requests.
ghost use Rattle.std.specs.Prelude.{◌≢◌, IfErr};
ghost use Rattle.sqlite.specs.Values.{bound_value};
ghost use Rattle.sqlite_value.specs.Value.{owned};
ghost use Rattle.store_tables.specs.Values.{MismatchesAt, NeedsAt, ReadsAt, count_value};
ghost use Rattle.store_tables.specs.Contents.Request.{IsTurn, turn_number};
ghost use Rattle.std.specs.Prelude.{◌≡◌, filter, option_to_list};
ghost use Rattle.store_tables.specs.declared.fault.StoreFault.{StoreFault};
ghost use Rattle.store_tables.specs.Contents.Request.{IsDatedRow, IsRequestRow, ReadsRequest};
ghost use Rattle.store_tables.specs.Contents.Request.{by_id, is_filed_in, is_numbered, number_of};
ghost use Rattle.store_tables.specs.Contents.Request.{dated_shown};
ghost use Rattle.store_tables.specs.Contents.{requests as rows_of, requests, add_request};
ghost use Rattle.store_tables.specs.Contents.{set_request as with_row};
ghost use Rattle.store_tables.specs.Readings.{MismatchesInRequests, Reads, TestsRequests};
ghost use Rattle.store_tables.specs.Picked.{AreOrdered, IsGreatest};
ghost use Rattle.store_tables.specs.Seen.{seen};
ghost use Rattle.sqlite.specs.Held.{state};
ghost use Rattle.sqlite.specs.Values.{bound};
ghost use Rattle.store_tables.specs.Calls.{StatementChanges, Leaves, ReadsAlone, ReadsRows};

pub mod dated;
pub mod numbers;

use crate::columns::{
    minute, minute_at, nullable, nullable_at, nullable_minute, number, number_at, text_at, words,
};
use crate::fault::StoreFault;
use crate::query::{select_all, select_one};
use crate::stored::Stored;
use crate::tables::Tables;
use crate::transaction::run_on_one;
use desk_model::{RequestRow, Turn};
use hours_core::Minute;
use sqlite::types::{ToSql, ValueRef};
use sqlite::{Alter, Row, Transaction};
use std::alloc::Global;
use text_core::Text;

/// The statement that makes the table.
pub(crate) const TABLE: &str =
    "CREATE TABLE IF NOT EXISTS request (id INTEGER PRIMARY KEY, queue TEXT NOT NULL REFERENCES \
     queue(name), subject TEXT NOT NULL, status TEXT NOT NULL, owner TEXT, level TEXT, created \
     INTEGER NOT NULL, opened INTEGER NOT NULL, turn INTEGER NOT NULL, since INTEGER NOT NULL, \
     due INTEGER) STRICT";

impl Stored for RequestRow {
    ghost reads = { ReadsRequest };

    ghost is_value = { IsRequestRow };

    fn read(row: &Row) -> Result<RequestRow, StoreFault> {
        // (what owns memory comes last)
        Ok(RequestRow {
            id: number_at(row, 0)?,
            created: minute_at(row, 6)?,
            opened: minute_at(row, 7)?,
            turn: turn_at(row, 8)?,
            since: minute_at(row, 9)?,
            queue: text_at(row, 1)?,
            subject: text_at(row, 2)?,
            status: text_at(row, 3)?,
            owner: nullable_at(row, 4)?,
            level: nullable_at(row, 5)?,
        })
    }
}

/// The requests that a query shows. `Mismatch` where one of its rows shows
/// none, `Refused` where the store or memory refuses it.
fn request_rows<S: Alter>(
    alloc: Global,
    tables: &mut Tables<S>,
    sql: &str,
    params: &[ValueRef<'_>],
) -> Result<Vec<RequestRow>, StoreFault>
    requires { ReadsAlone sql.now }
    ensures read { ReadsRows ReadsRequest IsRequestRow (λ xs. xs.items)
        sql.now (bound params.now) (seen S.Store tables.old) (seen S.Store tables.new) result }
    ensures leaves { Leaves (seen S.Store tables.old) (seen S.Store tables.new) result }
{
    select_all(alloc, tables, sql, params)
}

/// The requests, by number. `Mismatch` where a row is no request, `Refused` where the
/// store refuses it.
pub fn requests<S: Alter>(
    alloc: Global,
    tables: &mut Tables<S>,
) -> Result<Vec<RequestRow>, StoreFault>
    ensures read { Reads (λ c xs.
        AreOrdered by_id (rows_of c) xs.items)
        (seen S.Store tables.old) (seen S.Store tables.new) result }
    ensures tested { TestsRequests
        (seen S.Store tables.old) (seen S.Store tables.new) result }
{
    request_rows(
        alloc,
        tables,
        "SELECT id, queue, subject, status, owner, level, created, opened, turn, since FROM \
        request ORDER BY id",
        &[],
    )
}

/// The requests of a queue, by number. `Mismatch` where a row is no request, `Refused` where the
/// store refuses it.
pub fn requests_of<S: Alter>(
    alloc: Global,
    tables: &mut Tables<S>,
    queue: &Text,
) -> Result<Vec<RequestRow>, StoreFault>
    ensures read { Reads (λ c xs.
        AreOrdered by_id (filter (is_filed_in queue.now) (rows_of c)) xs.items)
        (seen S.Store tables.old) (seen S.Store tables.new) result }
    ensures mismatch { MismatchesInRequests
        (seen S.Store tables.old) (seen S.Store tables.new) result }
{
    request_rows(
        alloc,
        tables,
        "SELECT id, queue, subject, status, owner, level, created, opened, turn, since FROM \
        request WHERE queue = ?1 ORDER BY id",
        &[words(queue)],
    )
}

/// The request with that number, or none. `Mismatch` where its row is no request, `Refused` where
/// the store or memory refuses it, or there are two.
pub fn request_numbered<S: Alter>(
    tables: &mut Tables<S>,
    id: u32,
) -> Result<Option<RequestRow>, StoreFault>
    ensures { Reads (λ c r. option_to_list r ≡
        filter (is_numbered id) (requests c))
        (seen S.Store tables.old) (seen S.Store tables.new) result }
{
    select_one(
        tables,
        "SELECT id, queue, subject, status, owner, level, created, opened, turn, since FROM \
        request WHERE id = ?1",
        &[number(id)],
    )
}

/// The greatest number of a request, 0 where there is none. `Mismatch` where the row shows no
/// number, `Refused` where the store or memory refuses it.
pub fn last_id<S: Alter>(tables: &mut Tables<S>) -> Result<u32, StoreFault>
    ensures { Reads (λ c n. IsGreatest number_of (requests c) n)
        (seen S.Store tables.old) (seen S.Store tables.new) result }
{
    let last = select_one(
        tables,
        "SELECT id FROM request ORDER BY id DESC LIMIT 1",
        &[],
    )?;
    Ok(last.unwrap_or(0))
}

/// The columns of a request with its due moment, to be bound.
fn shown(row: &RequestRow, due: Option<Minute>) -> [ValueRef<'_>; 11]
    ensures bound { bound result ≡ dated_shown (row.now, due) }
    ensures value { IsDatedRow (dated_shown (row.now, due)) }
{
    [
        number(row.id),
        words(&row.queue),
        words(&row.subject),
        words(&row.status),
        nullable(&row.owner),
        nullable(&row.level),
        minute(row.created),
        minute(row.opened),
        turn(row.turn),
        minute(row.since),
        nullable_minute(due),
    ]
}

/// Adds a request with its due moment. `Refused` where the store or memory refuses it.
pub fn put_request<S: Alter>(
    tx: &mut Transaction<'_, S>,
    row: &RequestRow,
    due: Option<Minute>,
) -> Result<(), StoreFault>
    ensures same_reference { tx.new.conn.ghost_name ≡ tx.old.conn.ghost_name }
    ensures put { StatementChanges (λ c. add_request c row.now due)
        (state S.Store tx.old.conn.now) (state S.Store tx.new.conn.now) result }
{
    run_on_one(
        tx,
        "INSERT INTO request (id, queue, subject, status, owner, level, created, opened, turn, \
         since, due) VALUES (?1, ?2, ?3, ?4, ?5, ?6, ?7, ?8, ?9, ?10, ?11)",
        &shown(row, due),
    )
}

/// Sets a request's row and its due moment in the place of those with its number. `Refused` where
/// there is none, or the store or memory refuses it.
pub fn set_request<S: Alter>(
    tx: &mut Transaction<'_, S>,
    row: &RequestRow,
    due: Option<Minute>,
) -> Result<(), StoreFault>
    ensures same_reference { tx.new.conn.ghost_name ≡ tx.old.conn.ghost_name }
    ensures set { StatementChanges (λ c. with_row c row.now due)
        (state S.Store tx.old.conn.now) (state S.Store tx.new.conn.now) result }
{
    run_on_one(
        tx,
        "UPDATE request SET queue = ?2, subject = ?3, status = ?4, owner = ?5, level = ?6, \
         created = ?7, opened = ?8, turn = ?9, since = ?10, due = ?11 WHERE id = ?1",
        &shown(row, due),
    )
}

/// Whose turn it is, to be bound.
fn turn<'a>(turn: Turn) -> ValueRef<'a>
    ensures { bound_value (owned result) ≡ count_value (turn_number turn) }
{
    match turn {
        Turn::Desk => 0u32.to_sql(),
        Turn::Requestor => 1u32.to_sql(),
    }
}

/// Whose turn it is, by a column.
fn turn_at(row: &Row, at: usize) -> Result<Turn, StoreFault>
    ensures ok { ReadsAt (λ t. count_value (turn_number t)) row.now at result }
    ensures value { NeedsAt IsTurn row.now at result }
    ensures mismatch { MismatchesAt IsTurn row.now at result }
    ensures fault { IfErr result (λ e. e ≢ StoreFault.WrongVersion) }
{
    match number_at(row, at)? {
        0 => Ok(Turn::Desk),
        1 => Ok(Turn::Requestor),
        _ => Err(StoreFault::Mismatch),
    }
}
