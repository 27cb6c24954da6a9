//! What is done on files in memory, and what they are left with.

use crate::calls::make_tables;
use crate::failure::Failure;
use crate::tables::Opening;
use case_disk::{CaseFiles, End, Opened, Start};
use sqlite::Connection;
use std::alloc::{AllocError, Global};
use store_core::{Backend, Store};

/// What is done on a connection to files.
pub trait Visit {
    /// Does it, and gives the connection back.
    fn on<S: Backend>(&mut self, alloc: Global, conn: Connection<S>) -> Connection<S>;
}

/// Runs statements, as far as they go.
#[derive(Clone, Copy)]
pub(crate) struct Statements<'s>(pub(crate) &'s str);

impl Visit for Statements<'_> {
    fn on<S: Backend>(&mut self, _: Global, conn: Connection<S>) -> Connection<S> {
        let mut conn = conn;
        let _ = conn.execute_batch(self.0);
        conn
    }
}

/// Makes the tables that are missing, as far as that goes.
#[derive(Clone, Copy)]
pub(crate) struct Schema;

impl Visit for Schema {
    fn on<S: Backend>(&mut self, alloc: Global, conn: Connection<S>) -> Connection<S> {
        if !conn.is_autocommit() {
            return conn;
        }
        let mut store = Store::adopt(conn);
        let _ = make_tables(alloc, &mut store);
        store.release()
    }
}

/// Opens the files, where they can be opened: what they are left with after the visit.
pub fn visit_files<S: Backend + Drop, O: Opening<Connection<S>>, V: Visit>(
    alloc: Global,
    opening: &O,
    start: Start<'_>,
    visitor: &mut V,
    end: End,
) -> Result<CaseFiles, AllocError> {
    match opening.open(alloc, start)? {
        Opened::Open(conn) => opening.close(alloc, visitor.on(alloc, conn), end),
        Opened::Refused(left) => Ok(left),
    }
}

/// The bytes of the database file in which statements leave their tables; none without statements.
pub(crate) fn tables_of<S: Backend + Drop, O: Opening<Connection<S>>>(
    alloc: Global,
    opening: &O,
    statements: &str,
) -> Result<Vec<u8>, Failure> {
    if statements.is_empty() {
        return Ok(Vec::new(alloc));
    }
    let mut visitor = Statements(statements);
    let CaseFiles { db, .. } = visit_files(alloc, opening, Start::NEW, &mut visitor, End::Closed)?;
    Ok(db.bytes)
}
