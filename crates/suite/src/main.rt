//! Cases of the desk, of which each says what goes in and what has to come out: scripts, commands,
//! lists, messages, pages, and tables before and after, by SQL. No function of the desk is asked
//! but by these. Each case is a file `KIND/NAME`, and `case_text` tells how it is read and told.
//!
//! The status is 1 where a case differs, or where a file can't be read.
#![tactic(auto)]

mod asking;
mod asks;
mod calls;
mod chain;
mod commands;
mod desks;
mod failure;
mod lots;
mod made;
mod messages;
mod pages;
mod scripts;
mod served;
mod statements;
mod streams;
mod tables;
mod tally;

use crate::failure::Failure;
use crate::tables::Memory;
use case_text::{Answers, Case, try_cases};
use std::process::ExitCode;

/// The kinds, each a folder.
const KINDS: [&str; 6] = ["list", "messages", "one", "pages", "rows", "script"];

/// The parts that tell of which kind a case is; the first of them that it has does.
const PARTS: [&str; 6] = ["marks", "messages", "commands", "script", "list", "lots"];

fn main(rt: HostRuntime) -> ExitCode {
    match try_cases(&rt, &KINDS, &Suite) {
        Ok(true) => ExitCode::from(0),
        _ => ExitCode::from(1),
    }
}

/// What comes of cases over tables in memory.
#[derive(Clone, Copy)]
struct Suite;

impl Answers<HostRuntime> for Suite {
    type Failure = Failure;

    fn answer(&self, rt: &HostRuntime, out: &mut String, case: &Case<'_>) -> Result<(), Failure> {
        let alloc = rt.alloc();
        match case.kind(&PARTS) {
            "marks" => pages::run_case(alloc, out, &Memory, case),
            "messages" => messages::run_case(alloc, out, &Memory, case),
            "commands" => commands::run_case(alloc, out, &Memory, case),
            "script" => scripts::run_case(alloc, out, case),
            "list" => desks::run_case(alloc, out, &Memory, case),
            "lots" => tally::run_case(alloc, out, &Memory, case),
            _ => Err(Failure::BadLine),
        }
    }
}
