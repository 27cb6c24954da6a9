//! The stays of requests: how long each was in which status.
ghost use Rattle.std.specs.Prelude.{◌≡◌, filter, fold, OnOk};
ghost use Rattle.store_tables.specs.declared.fault.StoreFault.{StoreFault};
ghost use Rattle.store_tables.specs.Contents.Stay.{IsStayRow, ReadsRequestStay, ReadsStay, by_stay};
ghost use Rattle.store_tables.specs.Contents.Stay.{by_stay_number, is_of, request_stay, stay_of};
ghost use Rattle.store_tables.specs.Contents.Stay.{stay_row, stay_rows};
ghost use Rattle.store_tables.specs.Readings.{MismatchesInStays, Reads, TestsStays};
ghost use Rattle.store_tables.specs.Picked.{AreParts};
ghost use Rattle.store_tables.specs.Seen.{seen};
ghost use Rattle.sqlite.specs.Held.{state};
ghost use Rattle.store_tables.specs.Calls.{StatementChanges};
ghost use Rattle.store_tables.specs.Contents.{add_stay, end_stay as with_stay_ended};
ghost use Rattle.store_tables.specs.Stands.{OnlyStaysChange};

use crate::columns::{
    minute, minute_at, nullable_minute, nullable_minute_at, number, number_at, text_at, words,
};
use crate::fault::StoreFault;
use crate::query::select_all;
use crate::stored::Stored;
use crate::tables::Tables;
use crate::transaction::run_on_one;
use hours_core::{Minute, Stay};
use sqlite::{Alter, Row, Transaction};
use std::alloc::Global;

/// The statement that makes the table.
pub(crate) const TABLE: &str =
    "CREATE TABLE IF NOT EXISTS stay (request INTEGER NOT NULL REFERENCES request(id), number \
     INTEGER NOT NULL, status TEXT NOT NULL, begun INTEGER NOT NULL, ended INTEGER, PRIMARY KEY \
     (request, number)) STRICT";

impl Stored for Stay {
    ghost reads = { ReadsStay };

    ghost is_value = { IsStayRow };

    fn read(row: &Row) -> Result<Stay, StoreFault> {
        number_at(row, 0)?;
        number_at(row, 1)?;
        Ok(Stay {
            from: minute_at(row, 3)?,
            until: nullable_minute_at(row, 4)?,
            status: text_at(row, 2)?,
        })
    }
}

/// The number of a request, and a stay of it.
impl Stored for (u32, Stay) {
    ghost reads = { ReadsRequestStay };

    ghost is_value = { IsStayRow };

    fn read(row: &Row) -> Result<(u32, Stay), StoreFault> {
        let request = number_at(row, 0)?;
        Ok((request, Stay::read(row)?))
    }
}

/// The stays of a request, by number. `Mismatch` where a row is no stay, `Refused` where the store
/// or memory refuses it.
pub fn stays_of<S: Alter>(
    alloc: Global,
    tables: &mut Tables<S>,
    id: u32,
) -> Result<Vec<Stay>, StoreFault>
    ensures read { Reads (λ c xs.
        AreParts stay_of by_stay_number (filter (is_of id) c.stays) xs.items)
        (seen S.Store tables.old) (seen S.Store tables.new) result }
    ensures mismatch { MismatchesInStays
        (seen S.Store tables.old) (seen S.Store tables.new) result }
{
    select_all(
        alloc,
        tables,
        "SELECT request, number, status, begun, ended FROM stay WHERE request = ?1 \
        ORDER BY number",
        &[number(id)],
    )
}

/// The stays, each with the number of its request: by request and number. `Mismatch` where a row is
/// no stay, `Refused` where the store or memory refuses it.
pub fn stays<S: Alter>(
    alloc: Global,
    tables: &mut Tables<S>,
) -> Result<Vec<(u32, Stay)>, StoreFault>
    ensures read { Reads (λ c xs. AreParts request_stay by_stay c.stays xs.items)
        (seen S.Store tables.old) (seen S.Store tables.new) result }
    ensures tested { TestsStays
        (seen S.Store tables.old) (seen S.Store tables.new) result }
{
    select_all(
        alloc,
        tables,
        "SELECT request, number, status, begun, ended FROM stay ORDER BY request, number",
        &[],
    )
}

/// Adds a stay of the request, with that number. `Refused` where the store or memory refuses it.
pub fn put_stay<S: Alter>(
    tx: &mut Transaction<'_, S>,
    id: u32,
    place: u32,
    stay: &Stay,
) -> Result<(), StoreFault>
    ensures same_reference { tx.new.conn.ghost_name ≡ tx.old.conn.ghost_name }
    ensures put { StatementChanges (λ c. add_stay c (stay_row id place stay.now))
        (state S.Store tx.old.conn.now) (state S.Store tx.new.conn.now) result }
    ensures beside { OnOk result
        (OnlyStaysChange (state S.Store tx.old.conn.now) (state S.Store tx.new.conn.now)) }
{
    run_on_one(
        tx,
        "INSERT INTO stay (request, number, status, begun, ended) VALUES (?1, ?2, ?3, ?4, ?5)",
        &[
            number(id),
            number(place),
            words(&stay.status),
            minute(stay.from),
            nullable_minute(stay.until),
        ],
    )
}

/// Adds stays of the request, numbered from 1 in their order. `Refused` where the store or memory
/// refuses one, or there are 2^32 or more.
pub fn put_stays<S: Alter>(
    tx: &mut Transaction<'_, S>,
    id: u32,
    stays: &[Stay],
) -> Result<(), StoreFault>
    ensures same_reference { tx.new.conn.ghost_name ≡ tx.old.conn.ghost_name }
    ensures put { StatementChanges (λ c. fold add_stay c (stay_rows id stays.now))
        (state S.Store tx.old.conn.now) (state S.Store tx.new.conn.now) result }
    ensures beside { OnOk result
        (OnlyStaysChange (state S.Store tx.old.conn.now) (state S.Store tx.new.conn.now)) }
{
    let mut place = 0u32;
    for stay in stays {
        place = match place.checked_add(1) {
            Some(next) => next,
            None => return Err(StoreFault::Refused),
        };
        put_stay(tx, id, place, stay)?;
    }
    Ok(())
}

/// Gives the stay of the request with that number its end. `Refused` where there is none, or the
/// store or memory refuses it.
pub fn end_stay<S: Alter>(
    tx: &mut Transaction<'_, S>,
    id: u32,
    place: u32,
    until: Minute,
) -> Result<(), StoreFault>
    ensures same_reference { tx.new.conn.ghost_name ≡ tx.old.conn.ghost_name }
    ensures ended { StatementChanges (λ c. with_stay_ended c id place until)
        (state S.Store tx.old.conn.now) (state S.Store tx.new.conn.now) result }
{
    run_on_one(
        tx,
        "UPDATE stay SET ended = ?3 WHERE request = ?1 AND number = ?2",
        &[number(id), number(place), minute(until)],
    )
}
