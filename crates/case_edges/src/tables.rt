//! Tables of cases.
//!
//! All else is over whatever store tables are in: a function over one kind alone is dear to prove.

use crate::failure::Failure;
pub(crate) use case_disk::Opening;
use case_disk::{Opened, Start};
use sqlite::Connection;
use std::alloc::Global;
use store_core::{Backend, Store};

/// A store over the tables that the statements make in memory.
pub(crate) fn opened<S: Backend + Drop, O: Opening<Connection<S>>>(
    alloc: Global,
    opening: &O,
    statements: &str,
) -> Result<Store<S>, Failure> {
    match opening.open(alloc, Start::NEW)? {
        Opened::Open(conn) => after(conn, statements),
        Opened::Refused(left) => {
            drop(left);
            Err(Failure::NotOpened)
        }
    }
}

/// A store over the tables in the file at a path.
pub(crate) fn opened_at<S: Backend + Drop, O: Opening<Connection<S>>>(
    rt: &HostRuntime,
    opening: &O,
    path: &str,
) -> Result<Store<S>, Failure> {
    match opening.open_path(rt, path) {
        Some(conn) => adopted(conn),
        None => Err(Failure::NotOpened),
    }
}

/// The store over the tables of a connection on which the statements were run.
fn after<S: Backend + Drop>(conn: Connection<S>, statements: &str) -> Result<Store<S>, Failure> {
    let mut conn = conn;
    if let Err(error) = conn.execute_batch(statements) {
        drop(conn);
        return Err(Failure::Database(error));
    }
    adopted(conn)
}

/// The store over a connection, which is let go where it is in a transaction.
fn adopted<S: Backend + Drop>(conn: Connection<S>) -> Result<Store<S>, Failure> {
    if conn.is_autocommit() {
        Ok(Store::adopt(conn))
    } else {
        drop(conn);
        Err(Failure::BadLine)
    }
}
