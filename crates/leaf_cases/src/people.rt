//! People: the lines `persons`, `group` and `grant` give their parts, and `build` makes them, whom
//! the questions after it are asked of. A line that isn't understood ends all.
//!
//! What owns much is given back by `drop`, whose proof stands once; at the end of its scope it
//! would be taken apart for each function's own proof.

mod parts;

use crate::people::parts::HouseParts;
use crate::questions::ask_people;
use case_text::{Answering, CaseFault, answer_lines};
use rights_core::People;
use std::alloc::Global;

/// Adds each question with its answer.
pub(crate) fn run_case(alloc: Global, out: &mut String, lines: &str) -> Result<(), CaseFault> {
    let mut asked = Asked {
        parts: HouseParts::new(alloc),
        people: None,
    };
    let answered = answer_lines(alloc, out, &mut asked, lines);
    drop(asked);
    answered
}

/// The parts so far, and the people that were built last.
#[derive(Drop)]
struct Asked {
    parts: HouseParts,
    people: Option<People>,
}

impl Answering for Asked {
    type Failure = CaseFault;

    /// Takes a line that gives a part or builds the people, and adds any other with its answer.
    fn answer(&mut self, alloc: Global, out: &mut String, line: &str) -> Result<(), CaseFault> {
        if line == "build" {
            self.people = self.parts.build(alloc, out)?;
        } else if !self.parts.take(alloc, line)? {
            match &self.people {
                Some(people) => ask_people(alloc, out, people, line)?,
                None => return Err(CaseFault::BadLine),
            }
        }
        Ok(())
    }
}
