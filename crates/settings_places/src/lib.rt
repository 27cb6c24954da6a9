//! Where a fault of settings stands: the key or the name that has it, and the table that it stands
//! in.
//!
//! `settings_core` tells which fault a text has. What is found here is the first that has it, by
//! the order of keys, and of the rows of a list: the rules are those below, which answer what they
//! refuse. `read_telling` reads a text and tells both.
#![tactic(auto)]

mod grants;
pub mod laws;
pub mod lines;
mod names;
mod parts;
mod people;
pub mod place;
pub mod reading;
mod tokens;
pub mod told;
