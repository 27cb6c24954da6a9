//! A query, and the values that its rows show.
ghost use Rattle.std.specs.Prelude.{◌≡◌, ◌≢◌, ⊤, option_to_list, IfOk, IfErr};
ghost use Rattle.std.specs.List.{AllZip};
ghost use Rattle.sqlite.specs.Held.{state};
ghost use Rattle.sqlite.specs.Order.{Row as Columns};
ghost use Rattle.sqlite.specs.State.{HasCleanDisk, Shown, State};
ghost use Rattle.sqlite.specs.Values.{bound};
ghost use Rattle.sqlite_rules.specs.Lists.{Has};
ghost use Rattle.store_tables.specs.Calls.{Leaves, ReadsAlone, ReadsRows};
ghost use Rattle.store_tables.specs.declared.fault.StoreFault.{StoreFault};

use crate::fault::StoreFault;
use crate::stored::Stored;
use crate::tables::Tables;
use sqlite::types::ValueRef;
use sqlite::{Alter, Row, Transaction};
use std::alloc::Global;

/// What shows rows: tables, or a transaction over some, which goes on.
pub(crate) trait Shows {
    /// What its connection shows.
    ghost seen: { Self → State };

    /// It is over the same connection.
    ghost is_same: { Self → Self → Type 0 };

    /// All rows of a query that is known to read alone. `Refused` where the store or memory refuses
    /// it.
    fn select(&mut self, sql: &str, params: &[ValueRef<'_>]) -> Result<Vec<Row>, StoreFault>
        requires { ReadsAlone sql.now }
        ensures same { is_same self.old self.new }
        ensures shown { HasCleanDisk (seen self.new) → IfOk result (λ rows.
            Shown sql.now (bound params.now) (seen self.old) (seen self.new) rows.items) }
        ensures leaves { Leaves (seen self.old) (seen self.new) result }
        ensures fault { IfErr result (λ e. e ≡ StoreFault.Refused) };
}

impl<S: Alter> Shows for Tables<S> {
    ghost seen = { λ tables. state S.Store tables.conn };

    ghost is_same = { λ old new. ⊤ };

    fn select(&mut self, sql: &str, params: &[ValueRef<'_>]) -> Result<Vec<Row>, StoreFault> {
        match self.conn.query_all(sql, params) {
            Ok(rows) => Ok(rows),
            Err(_) => Err(StoreFault::Refused),
        }
    }
}

impl<S: Alter> Shows for Transaction<'_, S> {
    ghost seen = { λ tx. state S.Store tx.conn.now };

    ghost is_same = { λ old new. new.conn.ghost_name ≡ old.conn.ghost_name };

    fn select(&mut self, sql: &str, params: &[ValueRef<'_>]) -> Result<Vec<Row>, StoreFault> {
        match self.query_all(sql, params) {
            Ok(rows) => Ok(rows),
            Err(_) => Err(StoreFault::Refused),
        }
    }
}

/// The values that a query shows, one in each row. `Mismatch` where a row shows none, `Refused`
/// where the store or memory refuses it.
pub(crate) fn select_all<T: Stored + Drop, F: Shows>(
    alloc: Global,
    from: &mut F,
    sql: &str,
    params: &[ValueRef<'_>],
) -> Result<Vec<T>, StoreFault>
    requires { ReadsAlone sql.now }
    ensures same { F.Shows.is_same from.old from.new }
    ensures read { ReadsRows T.Stored.reads T.Stored.is_value (λ xs. xs.items)
        sql.now (bound params.now) (F.Shows.seen from.old) (F.Shows.seen from.new) result }
    ensures leaves { Leaves (F.Shows.seen from.old) (F.Shows.seen from.new) result }
{
    let rows = from.select(sql, params)?;
    read_all(alloc, rows.as_slice())
}

/// The one value that a query shows, or none. `Mismatch` where its row shows none, `Refused` where
/// the store or memory refuses it, or there are more rows.
pub(crate) fn select_one<T: Stored + Drop, F: Shows>(
    from: &mut F,
    sql: &str,
    params: &[ValueRef<'_>],
) -> Result<Option<T>, StoreFault>
    requires { ReadsAlone sql.now }
    ensures same { F.Shows.is_same from.old from.new }
    ensures read { ReadsRows T.Stored.reads T.Stored.is_value option_to_list
        sql.now (bound params.now) (F.Shows.seen from.old) (F.Shows.seen from.new) result }
    ensures leaves { Leaves (F.Shows.seen from.old) (F.Shows.seen from.new) result }
{
    let rows = from.select(sql, params)?;
    read_one(rows.as_slice())
}

/// The values that the rows show. `Mismatch` where one shows none.
fn read_all<T: Stored + Drop>(alloc: Global, rows: &[Row]) -> Result<Vec<T>, StoreFault>
    ensures ok { IfOk result (λ xs. AllZip T.Stored.reads rows.now xs.items) }
    ensures value { IfOk result (λ xs. (row : Columns) → Has rows.now row → T.Stored.is_value row) }
    ensures mismatch { IfErr result (λ e. e ≡ StoreFault.Mismatch →
        (r : _) × Has rows.now r × ¬ T.Stored.is_value r) }
    ensures fault { IfErr result (λ e. e ≢ StoreFault.WrongVersion) }
{
    let Ok(mut values) = Vec::with_capacity(alloc, rows.len()) else {
        return Err(StoreFault::Refused);
    };
    for row in rows {
        let value = T::read(row)?;
        match values.push(value) {
            Ok(()) => {}
            Err(_) => return Err(StoreFault::Refused),
        }
    }
    Ok(values)
}

/// The one value that the rows show, or none. `Mismatch` where the row shows none, `Refused` where
/// there are more rows.
fn read_one<T: Stored + Drop>(rows: &[Row]) -> Result<Option<T>, StoreFault>
    ensures ok { IfOk result (λ x. AllZip T.Stored.reads rows.now (option_to_list x)) }
    ensures value { IfOk result (λ x. (row : Columns) → Has rows.now row → T.Stored.is_value row) }
    ensures mismatch { IfErr result (λ e. e ≡ StoreFault.Mismatch →
        (r : _) × Has rows.now r × ¬ T.Stored.is_value r) }
    ensures fault { IfErr result (λ e. e ≢ StoreFault.WrongVersion) }
{
    match rows {
        [] => Ok(None),
        [row] => Ok(Some(T::read(row)?)),
        _ => Err(StoreFault::Refused),
    }
}
