//! Cases of the crates below the store, each in a file `KIND/NAME` that says what is tried and what
//! has to come of it: calls of texts, words, lifecycles, opening hours, people and decisions, and
//! settings.
//!
//! Without words the cases of each kind are tried, in the order of their names; words name the files
//! of those that are. A line tells of each that it is `ok`, or where it first differs. The word `-`
//! writes what comes of the case that stands in the standard input.
//!
//! The status is 1 where a case differs, or where a file can't be read.
#![tactic(auto)]

mod calls;
mod decisions;
mod hours;
mod people;
mod questions;
mod settings;
mod words;

use case_text::{Answers, Case, CaseFault, try_cases};
use std::process::ExitCode;

/// The kinds, each a folder.
const KINDS: [&str; 2] = ["calls", "settings"];

/// The parts that tell of which kind a case is; the first of them that it has does.
const PARTS: [&str; 5] = ["calls", "hours", "people", "decisions", "settings"];

fn main(rt: HostRuntime) -> ExitCode {
    match try_cases(&rt, &KINDS, &Leaves) {
        Ok(true) => ExitCode::from(0),
        _ => ExitCode::from(1),
    }
}

/// What comes of the calls of a case.
#[derive(Clone, Copy)]
struct Leaves;

impl Answers<HostRuntime> for Leaves {
    type Failure = CaseFault;

    fn answer(&self, rt: &HostRuntime, out: &mut String, case: &Case<'_>) -> Result<(), CaseFault> {
        let alloc = rt.alloc();
        match case.kind(&PARTS) {
            "calls" => calls::run_case(alloc, out, case.text("calls")),
            "hours" => hours::run_case(alloc, out, case.text("hours")),
            "people" => people::run_case(alloc, out, case.text("people")),
            "decisions" => decisions::run_case(alloc, out, case),
            "settings" => settings::run_case(alloc, out, case),
            _ => Err(CaseFault::BadLine),
        }
    }
}
