//! Tables over a connection, and the statements that make them.
ghost use Rattle.std.specs.Prelude.{◌≡◌, false};

pub mod entry;
pub mod link;
pub mod meta;
pub mod queue;
pub mod request;
pub mod stay;
pub mod watcher;

use sqlite::{Alter, Connection};

/// Tables over a connection that is in no transaction.
#[derive(Drop)]
pub struct Tables<S: Alter> {
    /// The connection; a transaction that begins on it ends before the tables are used again.
    pub conn: Connection<S>,
    ghost idle: { conn.in_transaction ≡ false },
}

/// The statements that make the tables, in an order in which each finds those that it refers to.
pub const TABLES: [&str; 7] = [
    meta::TABLE,
    queue::TABLE,
    request::TABLE,
    watcher::TABLE,
    link::TABLE,
    entry::TABLE,
    stay::TABLE,
];
