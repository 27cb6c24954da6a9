//! Tables for programs of cases: on disks in memory, of which each may stop after a number of calls,
//! or in a file of the system. All are one kind of store, which is named in this crate alone.
#![tactic(auto)]

mod disk;
mod files;
mod tables;

pub use files::{CaseFiles, FileLeft, Start};
pub use tables::{End, Opened, Opening, OverTables, over_disks};
