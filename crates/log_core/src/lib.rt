//! The line of the log that tells of a message: a function of what the log may tell, whatever comes.
#![tactic(auto)]

pub mod laws;
mod line;
mod note;
mod word;

pub use line::{Stamp, put_line, stamp_of};
pub use note::{Note, address_of, note_of};
