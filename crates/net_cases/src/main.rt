//! Cases of what goes over a network, without a desk: servers whose connections are in memory, to a
//! desk that echoes, and replies to a client. Each case is a file `KIND/NAME`, and `case_text` tells
//! how it is read and told.
//!
//! The status is 1 where a case differs, or where a file can't be read.
#![tactic(auto)]

mod cases;
mod desk;
mod failure;
mod lots;
mod replies;
mod servers;

use crate::failure::Failure;
use case_text::{Answers, Case, try_cases};
use std::process::ExitCode;

/// The kinds, each a folder.
const KINDS: [&str; 2] = ["replies", "servers"];

/// The parts that tell of which kind a case is; the first of them that it has does.
const PARTS: [&str; 2] = ["reply", "server"];

fn main(rt: HostRuntime) -> ExitCode {
    match try_cases(&rt, &KINDS, &Networks) {
        Ok(true) => ExitCode::from(0),
        _ => ExitCode::from(1),
    }
}

/// What comes of cases over connections in memory.
#[derive(Clone, Copy)]
struct Networks;

impl Answers<HostRuntime> for Networks {
    type Failure = Failure;

    fn answer(&self, rt: &HostRuntime, out: &mut String, case: &Case<'_>) -> Result<(), Failure> {
        let alloc = rt.alloc();
        match case.kind(&PARTS) {
            "reply" => replies::run_case(alloc, out, case.part("reply").unwrap_or(b"")),
            "server" => servers::run_case(alloc, out, case.text("server")),
            _ => Err(Failure::BadLine),
        }
    }
}
