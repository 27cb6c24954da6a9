//! What is sought among the requests that a caller may show, and what is found of them.
//!
//! Nothing here reads a table. `specs/Find.antt` says what is found on a desk.
#![tactic(auto)]

mod comments;
mod conditions;
mod home;
pub mod laws;
mod loads;
mod places;
mod rows;
mod search;
mod words;

pub use comments::{shows_comments, told};
pub use conditions::{asked_rows, is_left};
pub use home::{Home, HomeSearches};
pub use loads::{QueueLoad, open_ones, queue_loads, queues_seen};
pub use places::{Placed, page};
pub use rows::{found, last, place_if, row_at};
pub use search::{Findings, Found, Order, OwnerAsked, Place, Search, StatusAsked};
