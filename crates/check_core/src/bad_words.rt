//! A row that is no value of its type, in words for people.

ghost use Rattle.std.specs.Prelude.{◌≡◌, Some};
ghost use Rattle.std.specs.Option.{option_copied};
ghost use Rattle.sqlite.specs.Order.{column};
ghost use Rattle.check_core.specs.Words as spec;

use crate::bad_rows::BadRow;
use crate::columns::{Table, names_of};
use sqlite::Row;
use sqlite::types::ValueRef;
use std::fmt;

impl fmt::Display for Table {
    ghost output = { λ table. Some (spec.table_word table) };

    fn fmt<W: fmt::Write>(&self, f: &mut fmt::Formatter<W>) -> fmt::Result {
        f.write_str(match self {
            Table::Request => "request",
            Table::Queue => "queue",
            Table::Stay => "stay",
            Table::Link => "link",
            Table::Entry => "entry",
            Table::Watcher => "watcher",
        })
    }
}

/// The text that bytes are, if they are UTF-8.
fn text_of(bytes: &[u8]) -> Option<&str>
    ensures { option_copied result ≡ spec.text_of bytes.now }
{
    match std::str::from_utf8(bytes) {
        Ok(text) => Some(text),
        Err(_) => None,
    }
}

/// A text of a row, which is told only where it is UTF-8.
#[derive(Clone, Copy)]
struct TextAt<'r> {
    bytes: &'r [u8],
}

impl fmt::Display for TextAt<'_> {
    ghost output = { λ t. Some (spec.text_told (spec.text_of t.bytes.now)) };

    fn fmt<W: fmt::Write>(&self, f: &mut fmt::Formatter<W>) -> fmt::Result {
        match text_of(self.bytes) {
            Some(text) => write!(f, "`{text}`"),
            None => f.write_str("a text that isn't UTF-8"),
        }
    }
}

/// A value of a row.
#[derive(Clone, Copy)]
struct ValueAt<'r> {
    row: &'r Row,
    at: usize,
}

impl fmt::Display for ValueAt<'_> {
    ghost output = { λ v. Some (spec.value_text (column v.row.now v.at)) };

    fn fmt<W: fmt::Write>(&self, f: &mut fmt::Formatter<W>) -> fmt::Result {
        match self.row.get_ref(self.at) {
            Ok(ValueRef::Int(number)) => write!(f, "{number}"),
            Ok(ValueRef::Real(_)) => f.write_str("a number with a point"),
            Ok(ValueRef::Text(bytes)) => {
                let text = TextAt { bytes };
                write!(f, "{text}")
            }
            Ok(ValueRef::Blob(_)) => f.write_str("bytes"),
            Ok(ValueRef::Null) | Err(_) => f.write_str("nothing"),
        }
    }
}

/// The name of a column, empty where there is none.
fn name_at(table: Table, at: usize) -> &'static str
    ensures { result.now ≡ spec.name_at table at }
{
    match names_of(table).get(at) {
        Some(name) => *name,
        None => "",
    }
}

/// The name of a column.
#[derive(Clone, Copy)]
struct NameAt {
    table: Table,
    at: usize,
}

impl fmt::Display for NameAt {
    ghost output = { λ n. Some (spec.name_at n.table n.at) };

    fn fmt<W: fmt::Write>(&self, f: &mut fmt::Formatter<W>) -> fmt::Result {
        f.write_str(name_at(self.table, self.at))
    }
}

/// A column of a row, by its name, and its value.
#[derive(Clone, Copy)]
struct Cell<'r> {
    table: Table,
    row: &'r Row,
    at: usize,
}

impl fmt::Display for Cell<'_> {
    ghost output = { λ c. Some (spec.cell_text c.table c.row.now c.at) };

    fn fmt<W: fmt::Write>(&self, f: &mut fmt::Formatter<W>) -> fmt::Result {
        let name = name_at(self.table, self.at);
        let value = ValueAt {
            row: self.row,
            at: self.at,
        };
        write!(f, "{name} {value}")
    }
}

/// The first two columns of a row.
#[derive(Clone, Copy)]
struct Two<'r> {
    table: Table,
    row: &'r Row,
}

impl fmt::Display for Two<'_> {
    ghost output = { λ c. Some (spec.two_cells c.table c.row.now) };

    fn fmt<W: fmt::Write>(&self, f: &mut fmt::Formatter<W>) -> fmt::Result {
        let Two { table, row } = *self;
        let first = Cell { table, row, at: 0 };
        let second = Cell { table, row, at: 1 };
        write!(f, "{first}, {second}")
    }
}

/// The key of a row.
#[derive(Clone, Copy)]
struct Key<'r> {
    table: Table,
    row: &'r Row,
}

impl fmt::Display for Key<'_> {
    ghost output = { λ c. Some (spec.key_text c.table c.row.now) };

    fn fmt<W: fmt::Write>(&self, f: &mut fmt::Formatter<W>) -> fmt::Result {
        let Key { table, row } = *self;
        match table {
            Table::Request | Table::Queue => {
                let name = Cell { table, row, at: 0 };
                write!(f, "{name}")
            }
            Table::Stay | Table::Entry => {
                let two = Two { table, row };
                write!(f, "{two}")
            }
            Table::Link | Table::Watcher => {
                let two = Two { table, row };
                let third = Cell { table, row, at: 2 };
                write!(f, "{two}, {third}")
            }
        }
    }
}

impl fmt::Display for BadRow {
    ghost output = { λ bad. Some (spec.bad_text bad.table bad.row bad.at) };

    fn fmt<W: fmt::Write>(&self, f: &mut fmt::Formatter<W>) -> fmt::Result {
        let table = self.table;
        let row = &self.row;
        let at = self.at;
        let key = Key { table, row };
        let name = NameAt { table, at };
        let value = ValueAt { row, at };
        write!(
            f,
            "the table `{table}`, {key}: the column `{name}` has {value}, no value of its type"
        )
    }
}
