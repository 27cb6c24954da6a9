//! What is wrong with settings and the tables of a desk, in words for people: where a fault of the
//! settings stands, and what belongs there; the first row that is no value of its type; or the first
//! name in the tables that the settings don't know.
#![tactic(auto)]

mod amounts;
pub mod bad_rows;
mod bad_words;
pub mod columns;
mod day;
pub mod files;
mod inside;
pub mod laws;
pub mod names;
mod row_words;
pub mod rows;
pub mod tables;
pub mod text;
pub mod told;
mod typed;
pub mod weak;
mod why;
