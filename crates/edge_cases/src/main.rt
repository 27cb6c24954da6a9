//! Cases of what fails and what is at a limit: readers, writers, disks, clocks, listeners and
//! connections under commands, messages and loads. Each case is a file `KIND/NAME`, and `case_text`
//! tells how it is read and told.
//!
//! The status is 1 where a case differs, or where a file can't be read.
#![tactic(auto)]

use case_disk::{Opening, OverTables, over_disks};
use case_edges::{Failure, run_case};
use case_text::{Answers, Case, try_cases};
use sqlite::Connection;
use std::process::ExitCode;
use store_core::Backend;

/// The kinds, each a folder.
const KINDS: [&str; 6] = [
    "connections",
    "disks",
    "limits",
    "loads",
    "streams",
    "words",
];

fn main(rt: HostRuntime) -> ExitCode {
    match try_cases(&rt, &KINDS, &Edges) {
        Ok(true) => ExitCode::from(0),
        _ => ExitCode::from(1),
    }
}

/// What comes of cases.
#[derive(Clone, Copy)]
struct Edges;

impl Answers<HostRuntime> for Edges {
    type Failure = Failure;

    fn answer(&self, rt: &HostRuntime, out: &mut String, case: &Case<'_>) -> Result<(), Failure> {
        let mut trying = Trying {
            rt,
            out,
            case,
            tried: Ok(()),
        };
        over_disks(&mut trying);
        trying.tried
    }
}

/// A case that is tried, and what comes of it.
#[derive(Drop)]
struct Trying<'t, 'c> {
    rt: &'t HostRuntime,
    out: &'t mut String,
    case: &'t Case<'c>,
    tried: Result<(), Failure>,
}

impl OverTables for Trying<'_, '_> {
    fn over<S: Backend + Drop, O: Opening<Connection<S>>>(&mut self, opening: &O) {
        self.tried = run_case(self.rt, self.out, opening, self.case);
    }
}
