//! What a program is given from outside: words of a server and of one command.

use crate::failure::Failure;
use case_text::{Answering, answer_lines};
use desk_program::{one_command_of, serving_of};
use std::alloc::{AllocError, Global};
use wire_core::words_of;

/// What is answered where they are none of these.
const NONE: &str = "none";

/// Adds each line again with what it asks for: `serving` or `one_command` with such words.
pub(crate) fn run_case(alloc: Global, out: &mut String, lines: &str) -> Result<(), Failure> {
    answer_lines(alloc, out, &mut Asked, lines)
}

/// What the words of a line ask for.
#[derive(Clone, Copy)]
struct Asked;

impl Answering for Asked {
    type Failure = Failure;

    fn answer(&mut self, alloc: Global, out: &mut String, line: &str) -> Result<(), Failure> {
        let (call, rest) = line.split_once(' ').unwrap_or((line, ""));
        let words = words_of(alloc, rest)?;
        let answer = match call {
            "serving" => serving_answer(alloc, words.as_slice())?,
            "one_command" => one_command_answer(alloc, words.as_slice())?,
            _ => return Err(Failure::BadLine),
        };
        writeln!(out, "{line} => {}", answer.as_str())?;
        Ok(())
    }
}

/// The server that the words ask for.
fn serving_answer(alloc: Global, words: &[String]) -> Result<String, AllocError> {
    match serving_of(words) {
        Some(serving) => {
            let (tables, settings) = (serving.tables, serving.settings);
            let (port, count) = (serving.port, serving.count);
            format!(in alloc; "{tables} {settings} {port} {count}")
        }
        None => String::from_str(alloc, NONE),
    }
}

/// The one command that the words ask for, with the number of its words and the first of them.
fn one_command_answer(alloc: Global, words: &[String]) -> Result<String, AllocError> {
    match one_command_of(words) {
        Some(asked) => {
            let (tables, settings) = (asked.tables, asked.settings);
            let (caller, at, count) = (asked.caller, asked.at, asked.words.len());
            let first = match asked.words {
                [first, ..] => first.as_str(),
                [] => NONE,
            };
            format!(in alloc; "{tables} {settings} {caller} {at} {count} {first}")
        }
        None => String::from_str(alloc, NONE),
    }
}
