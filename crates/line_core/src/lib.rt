//! Lines off a stream, one at a time: what stands before each line feed, and at the end what stands
//! after the last one.
//!
//! A line is put into a buffer that is used again, and of one that is too long no more than its
//! beginning is held.
#![tactic(auto)]

pub mod laws;
mod lines;

pub use lines::{LINE_LIMIT, Taken, take_line};
