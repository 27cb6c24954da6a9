//! What reports tell of rows: of the requests with their due moments, of the queues, and of the
//! watches of who reads them. Nothing here reads a table. Rows are handed in, and what isn't told of
//! them goes; queues and watches are looked up by halving.
//!
//! `list` keeps the order of the rows. `overdue` has those that are due before the moment.
//! `line_shown` and `late_line_shown` are the same of one row. `workload` has for each owner, nobody
//! first, how many requests aren't inactive and how many of these are late.
#![tactic(auto)]

mod late;
mod lines;
mod load;
mod queues;
mod reports;
mod showing;

pub use late::late_line_shown;
pub use lines::line_shown;
pub use queues::queue_named;
pub use reports::{list, overdue, workload};
pub use showing::{is_shown, watches_of};
