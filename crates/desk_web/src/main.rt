//! The program `desk_web`: a server of many connections over a file of tables.
#![tactic(auto)]

mod copies;
mod files;
mod options;
mod server;
mod system;
mod tables;
mod usage;

use options::{Asked, asked_of};
use release::{print_alone, tell_wrong};
use std::process::ExitCode;
use std::{env, io};
use usage::{HELP, OPTIONS};

/// The exit status of words that the program doesn't know.
const BAD_WORDS: u8 = 2;

/// The exit status of a failed write.
const FAILED_WRITE: u8 = 4;

/// `desk_web --db FILE --settings FILE --port N` serves the desk of that file to all who connect to
/// that port on the loopback. With `--count K` it ends once it has answered K messages, with
/// `--log` it prints a line for each, and with `--proxy` that has the address that the proxy tells.
/// With `--https` the cookie of its pages goes by HTTPS alone. With `--copies FILE` it copies its tables
/// there when it is asked to. `--help` and `--version` tell of it. All else is `bad words`.
fn main(rt: HostRuntime) -> ExitCode {
    match words_of(&rt) {
        Ok(words) => ExitCode::from(run(&rt, words.as_slice())),
        Err(_) => ExitCode::from(refuse(&rt)),
    }
}

/// The words that the program was given.
fn words_of(rt: &HostRuntime) -> io::Result<Vec<String>> {
    let mut words = Vec::new(rt.alloc());
    for word in env::args(rt)?.skip(1) {
        words.push(word)?;
    }
    Ok(words)
}

fn run(rt: &HostRuntime, words: &[String]) -> u8 {
    if let Some(printed) = print_alone(rt, "desk_web", HELP, words) {
        return match printed {
            Ok(()) => 0,
            Err(_) => FAILED_WRITE,
        };
    }
    match asked_of(rt.alloc(), words) {
        Some(asked) => tables::run(rt, &asked),
        None => {
            let _told = tell_wrong(rt, "desk_web", &OPTIONS, words);
            refuse(rt)
        }
    }
}

/// Prints that the words aren't known.
fn refuse(rt: &HostRuntime) -> u8 {
    match println!(rt; "bad words") {
        Ok(()) => BAD_WORDS,
        Err(_) => FAILED_WRITE,
    }
}
