//! A reader and a writer that count how often they are called, and know whether a call failed.
//!
//! Their fields are private, so a crate above reads and writes by these calls alone. What they hold
//! is said by the words of `specs/Seen.antt`.
#![tactic(auto)]

mod reader;
mod writer;

pub use reader::CountedReader;
pub use writer::CountedWriter;
