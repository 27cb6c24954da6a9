//! Statements on the tables as they are, by SQL.

use crate::failure::Failure;
use case_text::str_of;
use sqlite::{Connection, Row};
use sqlite_value::value::ValueRef;
use store_core::Backend;

/// What begins a statement that gives rows.
const QUERY: &str = "SELECT ";

/// Whether a line is a statement, and not a command, which begins with its moment.
pub(crate) fn is_statement(line: &str) -> bool {
    matches!(line.as_bytes().first(), Some(byte) if byte.is_ascii_uppercase())
}

/// Makes each line's statement on a connection, which is let go then.
pub(crate) fn ask_each<S: Backend + Drop>(
    out: &mut String,
    conn: Connection<S>,
    lines: &str,
) -> Result<(), Failure> {
    let mut conn = conn;
    let asked = ask_lines(out, &mut conn, lines);
    drop(conn);
    asked
}

fn ask_lines<S: Backend>(
    out: &mut String,
    conn: &mut Connection<S>,
    lines: &str,
) -> Result<(), Failure> {
    for line in lines.lines() {
        ask(out, conn, line)?;
    }
    Ok(())
}

/// Makes a statement, and adds it; then the rows that it gives, a line each, with `-` for what is
/// null.
pub(crate) fn ask<S: Backend>(
    out: &mut String,
    conn: &mut Connection<S>,
    line: &str,
) -> Result<(), Failure> {
    writeln!(out, "{line}:")?;
    if line.starts_with(QUERY) {
        put_rows(out, conn.query_all(line, &[])?)
    } else {
        conn.execute_batch(line)?;
        Ok(())
    }
}

fn put_rows(out: &mut String, rows: Vec<Row>) -> Result<(), Failure> {
    for row in rows.as_slice() {
        put_row(out, row)?;
    }
    Ok(())
}

fn put_row(out: &mut String, row: &Row) -> Result<(), Failure> {
    write!(out, " ")?;
    for at in 0..row.column_count() {
        put_value(out, row.get_ref(at)?)?;
    }
    writeln!(out)?;
    Ok(())
}

fn put_value(out: &mut String, value: ValueRef<'_>) -> Result<(), Failure> {
    match value {
        ValueRef::Int(number) => write!(out, " {number}")?,
        ValueRef::Text(text) => write!(out, " {}", str_of(text))?,
        _ => write!(out, " -")?,
    }
    Ok(())
}
