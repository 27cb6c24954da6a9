//! What is wrong first with the tables of a connection, in words.

ghost use Rattle.std.specs.Prelude.{◌≡◌, IfOk, Some, false, string_bytes};
ghost use Rattle.std.specs.Option.{option_map};
ghost use Rattle.store_core.specs.Seen.{state_of};
ghost use Rattle.check_core.specs.Told as spec;
ghost use Rattle.check_core.specs.declared.columns.Version.{Version};

use crate::bad_rows::{BadRow, bad_row};
use crate::columns::Version;
use crate::names::first_name;
use crate::tables::{Wrong, fault_of_tables};
use settings_core::Settings;
use sqlite::Connection;
use std::alloc::{AllocError, Global};
use std::fmt;
use store_core::{Backend, Store, StoreFault};
use store_tables::Tables;

/// Which tables of a desk there are.
const TABLES_THERE: &str = "SELECT name FROM sqlite_master WHERE type = 'table' AND name IN \
    ('meta', 'queue', 'request', 'watcher', 'link', 'entry', 'stay')";

/// Why the tables could not be read.
#[derive(Clone, Copy)]
struct Why {
    fault: StoreFault,
}

impl fmt::Display for Why {
    ghost output = { λ why. Some (spec.fault_text why.fault) };

    fn fmt<W: fmt::Write>(&self, f: &mut fmt::Formatter<W>) -> fmt::Result {
        f.write_str(match self.fault {
            StoreFault::WrongVersion => "the tables are of another version",
            StoreFault::Mismatch => "a row of the tables is no value of its type",
            StoreFault::Refused => "a statement or memory was refused",
        })
    }
}

/// What is wrong first with the tables of a connection, in words: their version, a row that is no
/// value of its type, by its table, its key and the column, or a name that the settings don't know,
/// by its row. Nothing is wrong where there are none of a desk yet. The tables are let go as they
/// are.
pub fn told_of<S: Backend + Drop>(
    alloc: Global,
    conn: Connection<S>,
    settings: &Settings,
) -> Result<Option<String>, AllocError>
    requires { conn.in_transaction ≡ false }
{
    let mut store = Store::adopt(conn);
    match store.version() {
        Ok(2) => told_of_present(alloc, store, settings),
        Ok(1) => told_of_first(alloc, store, settings),
        Ok(_) => {
            drop(store);
            version_told(alloc, StoreFault::WrongVersion)
        }
        Err(fault) => told_without_version(alloc, store, fault),
    }
}

/// What is wrong with tables whose version can't be read: nothing where there are none of a desk.
fn told_without_version<S: Backend + Drop>(
    alloc: Global,
    store: Store<S>,
    fault: StoreFault,
) -> Result<Option<String>, AllocError> {
    let mut tables = Tables {
        conn: store.release(),
    };
    let none = has_none(&mut tables);
    drop(tables);
    if none {
        Ok(None)
    } else {
        version_told(alloc, fault)
    }
}

/// Whether there is no table of a desk, so that a load would make them.
fn has_none<S: Backend>(tables: &mut Tables<S>) -> bool {
    match tables.conn.query_all(TABLES_THERE, &[]) {
        Ok(named) => named.is_empty(),
        Err(_) => false,
    }
}

/// Why the version of tables can't be told, or which it isn't.
fn version_told(alloc: Global, fault: StoreFault) -> Result<Option<String>, AllocError>
    ensures { IfOk result (λ told.
        option_map string_bytes told ≡ Some (spec.version_line fault)) }
{
    match fault {
        StoreFault::Mismatch => {
            let told = format!(in alloc;
                "store: the table `meta`: its version is no value of its type"
            )?;
            Ok(Some(told))
        }
        fault => {
            let why = Why { fault };
            Ok(Some(format!(in alloc; "store: {why}")?))
        }
    }
}

/// What is wrong first with tables of the present version, in words.
fn told_of_present<S: Backend + Drop>(
    alloc: Global,
    mut store: Store<S>,
    settings: &Settings,
) -> Result<Option<String>, AllocError>
    ensures { IfOk result (λ told.
        spec.IsToldOf S.Store settings.now (state_of S.Store store) (option_map string_bytes told)) }
{
    match fault_of_tables(alloc, &mut store, settings) {
        Some(Wrong::Name(name)) => {
            drop(store);
            name_told(alloc, name.as_str())
        }
        Some(Wrong::Rows(StoreFault::Mismatch)) => row_told(alloc, store),
        Some(Wrong::Rows(fault)) => {
            drop(store);
            unread_told(alloc, fault)
        }
        None => {
            drop(store);
            Ok(None)
        }
    }
}

/// The first row of tables of the present version that is no value of its type, in words.
fn row_told<S: Backend + Drop>(alloc: Global, store: Store<S>) -> Result<Option<String>, AllocError>
    ensures { IfOk result (λ told. spec.AreRowsTold S.Store Version.Present
        (state_of S.Store store) (option_map string_bytes told)) }
{
    let mut tables = Tables {
        conn: store.release(),
    };
    match bad_row(&mut tables, Version::Present) {
        Ok(Some(bad)) => {
            drop(tables);
            bad_told(alloc, bad)
        }
        Ok(None) => {
            drop(tables);
            unread_told(alloc, StoreFault::Mismatch)
        }
        Err(fault) => {
            drop(tables);
            unread_told(alloc, fault)
        }
    }
}

/// What is wrong first with tables of version 1, in words: a row that is no value of its type, or
/// else a name that the settings don't know.
fn told_of_first<S: Backend + Drop>(
    alloc: Global,
    store: Store<S>,
    settings: &Settings,
) -> Result<Option<String>, AllocError>
    ensures { IfOk result (λ told. spec.AreRowsTold S.Store Version.First
        (state_of S.Store store) (option_map string_bytes told)) }
{
    let mut tables = Tables {
        conn: store.release(),
    };
    match bad_row(&mut tables, Version::First) {
        Ok(Some(bad)) => {
            drop(tables);
            bad_told(alloc, bad)
        }
        Ok(None) => first_name_told(alloc, Store::adopt(tables.conn), settings),
        Err(fault) => {
            drop(tables);
            unread_told(alloc, fault)
        }
    }
}

/// The first name of tables of version 1 that the settings don't know, in words.
fn first_name_told<S: Backend + Drop>(
    alloc: Global,
    mut store: Store<S>,
    settings: &Settings,
) -> Result<Option<String>, AllocError> {
    match first_name(alloc, &mut store, settings) {
        Ok(Some(name)) => {
            drop(store);
            name_told(alloc, name.as_str())
        }
        Ok(None) => {
            drop(store);
            Ok(None)
        }
        Err(fault) => {
            drop(store);
            unread_told(alloc, fault)
        }
    }
}

fn name_told(alloc: Global, name: &str) -> Result<Option<String>, AllocError>
    ensures { IfOk result (λ told.
        option_map string_bytes told ≡ Some (spec.name_line name.now)) }
{
    Ok(Some(format!(in alloc; "attach: {name}")?))
}

fn bad_told(alloc: Global, bad: BadRow) -> Result<Option<String>, AllocError>
    ensures { IfOk result (λ told.
        option_map string_bytes told ≡ Some (spec.row_line (bad.table, (bad.row, bad.at)))) }
{
    Ok(Some(format!(in alloc; "attach: {bad}")?))
}

fn unread_told(alloc: Global, fault: StoreFault) -> Result<Option<String>, AllocError>
    ensures { IfOk result (λ told.
        option_map string_bytes told ≡ Some (spec.unread_line fault)) }
{
    let why = Why { fault };
    Ok(Some(format!(in alloc; "attach: the tables could not be read: {why}")?))
}
