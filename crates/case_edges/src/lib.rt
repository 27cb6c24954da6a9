//! What comes of cases of what fails and what is at a limit: readers, writers, disks, clocks,
//! listeners and connections under commands, messages and loads, over whatever store the tables are
//! in.
#![tactic(auto)]

mod asks;
mod calls;
mod commands;
mod connections;
mod course;
mod desks;
mod disks;
mod dues;
mod each;
mod failure;
mod limits;
mod loads;
mod loopback;
mod messages;
mod opening;
mod reads;
mod rows;
mod runs;
mod scripts;
mod served;
mod spoiled;
mod stops;
mod streams;
mod tables;
mod trials;
mod words;
mod written;

pub use calls::{attach, make_tables, read_settings};
use case_disk::Opening;
use case_text::Case;
pub use desks::{Before, do_first};
pub use disks::{Visit, visit_files};
pub use failure::Failure;
pub use messages::sent_in;
pub use reads::requests;
pub use served::Sent;
use sqlite::Connection;
use std::alloc::Global;
pub use stops::Stop;
use store_core::Backend;

/// The parts that tell of which kind a case is; the first of them that it has does.
const PARTS: [&str; 6] = ["messages", "commands", "script", "list", "loads", "words"];

/// Adds what comes of a case.
pub fn run_case<S: Backend + Drop, O: Opening<Connection<S>>>(
    rt: &HostRuntime,
    out: &mut String,
    opening: &O,
    case: &Case<'_>,
) -> Result<(), Failure> {
    let alloc = rt.alloc();
    match case.kind(&PARTS) {
        "messages" => messages::run_case(rt, out, opening, case),
        "commands" => commands::run_case(rt, out, opening, case),
        "list" => trials::run_case(alloc, out, opening, case),
        "loads" => loads::run_case(alloc, out, opening, case),
        kind => run_without_tables(alloc, out, case, kind),
    }
}

/// Adds what comes of a case that has no tables of its own.
fn run_without_tables(
    alloc: Global,
    out: &mut String,
    case: &Case<'_>,
    kind: &str,
) -> Result<(), Failure> {
    match kind {
        "script" => scripts::run_case(alloc, out, case),
        "words" => words::run_case(alloc, out, case.text("words")),
        _ => Err(Failure::BadLine),
    }
}
