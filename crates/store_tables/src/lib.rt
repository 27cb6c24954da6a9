//! The tables of a desk: what their rows say, and a function for each statement that reads or
//! changes them. No other crate names a table or a statement, and no statement reads two tables.
//!
//! A table has a file of its own in each of these, and a line in the file above them:
//!
//! - `src/tables`: the text that makes it, how its rows are read and written, its statements.
//! - `specs/Contents`: its columns, how a value is spelt in them, which rows a query selects and in
//!   which order. `Contents` itself has all that names each table: what seven tables hold.
//! - `proofs/Contents`: that a row that shows a value shows no other. What a statement's text means
//!   stands with the proof of its function, in `proofs/tables`.
//!
//! `query` reads, over `Tables`, a connection in no transaction, or in a transaction that goes on.
//! `written` puts rows in and takes rows out, in a transaction.
//!
//! Of `specs/`, `Calls`, `Readings`, `Picked` and `Seen` say what calls answer and leave, `Making`,
//! `Kept` and `Stands` how far tables are made and what they stand for, `Dated` which requests they
//! show, whatever rows the other tables have. Of `proofs/`, `then`, `giving`, `telling` and
//! `failed_at` put readings together (`ReadOn`), `does_both`, `does_more` and `does_all` writes
//! (`StepLemmas`). Where tables stand for a desk a read is never a mismatch (`blames_none`), and
//! what stood before stands afterwards (`stands`, `stands_for` of `Spared`). `ShownDated` follows
//! the requests that tables show from call to call.
#![tactic(auto)]

mod at_rest;
mod columns;
pub mod fault;
mod query;
mod stored;
pub mod tables;
pub mod transaction;
pub mod written;

pub use fault::StoreFault;
pub use tables::Tables;
