//! Where the tables of cases are.
//!
//! All else is over whatever store tables are in: a function over one kind alone is dear to prove.

use crate::failure::Failure;
use sqlite::{Connection, MemStore};
use std::alloc::Global;
use store_core::{Backend, Store};

/// What opens tables.
pub(crate) trait Opening {
    /// What they are kept in.
    type Kept: Backend + Drop;

    /// A connection to no tables.
    fn open(&self, alloc: Global) -> Result<Connection<Self::Kept>, Failure>;
}

/// Tables in memory.
#[derive(Clone, Copy)]
pub(crate) struct Memory;

impl Opening for Memory {
    type Kept = MemStore;

    fn open(&self, alloc: Global) -> Result<Connection<MemStore>, Failure> {
        Ok(Connection::open_in_memory(alloc)?)
    }
}

/// A store over the tables that the statements make.
pub(crate) fn opened<O: Opening>(
    alloc: Global,
    opening: &O,
    statements: &str,
) -> Result<Store<O::Kept>, Failure> {
    let conn = opening.open(alloc)?;
    after(conn, statements)
}

/// The store over the tables of a connection on which the statements were run.
fn after<S: Backend + Drop>(conn: Connection<S>, statements: &str) -> Result<Store<S>, Failure> {
    let mut conn = conn;
    if let Err(error) = conn.execute_batch(statements) {
        drop(conn);
        return Err(Failure::Database(error));
    }
    adopted(conn)
}

/// The store over a connection, which is let go where it is in a transaction.
pub(crate) fn adopted<S: Backend + Drop>(conn: Connection<S>) -> Result<Store<S>, Failure> {
    if conn.is_autocommit() {
        Ok(Store::adopt(conn))
    } else {
        drop(conn);
        Err(Failure::BadLine)
    }
}
