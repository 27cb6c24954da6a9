//! What lists and reports tell of the tables: whole, or row by row to a writer. Rows are read by
//! `store_core`, told by `report_core` and put into words by `desk_texts`.
//!
//! `list`, `overdue` and `workload` answer what is so of the desk, by the due moments kept.
//! `overdue` makes values only of rows that are due before the moment; the store still goes over
//! each. `stream_list` and `stream_overdue` write the same texts row by row (`WritesText`): whole,
//! or a part from the front with `Write` or `Refused(Unavailable)`. The texts of rows are gathered,
//! and go out 8 KiB at a time; what is gathered when a list is cut short goes out as well.
//! `specs/Rows.antt` has the words of the contracts on rows, `Gathered.antt` those on what is
//! gathered, `Lines.antt` those of their texts.
#![tactic(auto)]

mod fault;
mod gathered;
mod lines;
mod reports;
mod rows;
mod stream;

pub use fault::StreamFault;
pub use reports::{list, overdue, workload};
pub use stream::{stream_list, stream_overdue};
