//! The program `desk_load`: lines of commands from the standard input, loaded into a file of tables.
#![tactic(auto)]

mod check;
mod files;
mod load;
mod new_token;
mod options;
mod progress;
mod tables;
mod usage;

use options::{Task, asked_of};
use release::{print_alone, tell_wrong};
use std::process::ExitCode;
use std::{env, io};
use usage::{HELP, OPTIONS};

/// The exit status of words that the program doesn't know.
const BAD_WORDS: u8 = 2;

/// The exit status of a failed write.
const FAILED_WRITE: u8 = 4;

/// `desk_load --db FILE --settings FILE` answers the lines of the standard input on the desk of that
/// file, and prints each answer that tells more than that a command is done, with its line's number.
/// With `--all` it prints each, with `--stop` the first refusal ends it, with `--from N` it begins
/// with line N, and with `--commit N` each N commands that are done are one transaction. With
/// `--check` it reads no line, and prints what is wrong first with the settings and the file.
/// `--new-token PERSON`, alone, prints a line with a token for the settings.
/// `--help` and `--version` tell of it. All else is `bad words`.
fn main(rt: HostRuntime) -> ExitCode {
    match words_of(&rt) {
        Ok(words) => ExitCode::from(run(&rt, words.as_slice())),
        Err(_) => ExitCode::from(refuse(&rt)),
    }
}

/// The words that the program was given.
fn words_of(rt: &HostRuntime) -> io::Result<Vec<String>> {
    let mut words = Vec::new(rt.alloc());
    for word in env::args(rt)?.skip(1) {
        words.push(word)?;
    }
    Ok(words)
}

fn run(rt: &HostRuntime, words: &[String]) -> u8 {
    if let Some(printed) = print_alone(rt, "desk_load", HELP, words) {
        return match printed {
            Ok(()) => 0,
            Err(_) => FAILED_WRITE,
        };
    }
    if let Some(person) = new_token::person_of(words) {
        return new_token::run(rt, person);
    }
    match asked_of(rt.alloc(), words) {
        Some(asked) => match asked.task {
            Task::Load(plan, commit) => tables::run(rt, &asked, plan, commit),
            Task::Check => check::run(rt, &asked),
        },
        None => {
            let _told = tell_wrong(rt, "desk_load", &OPTIONS, words);
            refuse(rt)
        }
    }
}

/// Prints that the words aren't known.
fn refuse(rt: &HostRuntime) -> u8 {
    match println!(rt; "bad words") {
        Ok(()) => BAD_WORDS,
        Err(_) => FAILED_WRITE,
    }
}
