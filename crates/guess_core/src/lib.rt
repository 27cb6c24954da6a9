//! Addresses from which too many wrong tokens came.
//!
//! `Guesses` has the wrong tokens of one minute, by their addresses: 10,240 of them at most. An address
//! of which it has ten is barred for the rest of that minute, and no other is: `laws` says so of all
//! that was noted. Where the table is full no further one is noted until the minute is over.
#![tactic(auto)]

mod guesses;
pub mod laws;

pub use guesses::Guesses;
