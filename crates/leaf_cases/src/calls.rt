//! Calls: each line is a call with its arguments, and is written again with the answer.
//!
//! The first word names the call; the words after it are read as those of a command.
//!
//! What owns much is given back by `drop`, whose proof stands once; at the end of its scope it
//! would be taken apart for each function's own proof.

mod codes;
mod forms;
mod lifecycles;
mod words;

use crate::calls::codes::hmac_answer;
use crate::calls::forms::form_answer;
use crate::calls::lifecycles::lifecycle_answer;
use crate::calls::words::{command_answer, words_answer};
use case_text::{Answering, CaseFault, answer_lines};
use desk_words::words_of;
use lifecycle_core::Lifecycle;
use std::alloc::{AllocError, Global};

/// Adds each line with its answer.
pub(crate) fn run_case(alloc: Global, out: &mut String, lines: &str) -> Result<(), CaseFault> {
    let mut asked = Asked { lifecycle: None };
    let answered = answer_lines(alloc, out, &mut asked, lines);
    drop(asked);
    answered
}

/// The lifecycle that was built last, which questions are about.
#[derive(Drop)]
struct Asked {
    lifecycle: Option<Lifecycle>,
}

impl Answering for Asked {
    type Failure = CaseFault;

    fn answer(&mut self, alloc: Global, out: &mut String, line: &str) -> Result<(), CaseFault> {
        let (call, rest) = line.split_once(' ').unwrap_or((line, ""));
        let answer = match call {
            "words" => words_answer(alloc, rest)?,
            "command" => command_answer(alloc, rest)?,
            _ => called(alloc, &mut self.lifecycle, call, rest)?,
        };
        writeln!(out, "{line} => {}", answer.as_str())?;
        Ok(())
    }
}

/// The answer to a call whose arguments are words.
fn called(
    alloc: Global,
    lifecycle: &mut Option<Lifecycle>,
    call: &str,
    rest: &str,
) -> Result<String, AllocError> {
    let Ok(words) = words_of(alloc, rest) else {
        return String::from_str(alloc, "bad quotes");
    };
    if call == "hmac" {
        return Ok(hmac_answer(alloc, words.as_slice())?.unwrap_or(String::new(alloc)));
    }
    match form_answer(alloc, call, words.as_slice())? {
        Some(answer) => Ok(answer),
        None => lifecycle_answer(alloc, lifecycle, call, words.as_slice()),
    }
}
