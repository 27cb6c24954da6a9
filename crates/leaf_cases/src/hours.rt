//! Opening hours: each line is a call, and is written again with its answer.
//!
//! The lines `zone`, `rule`, `week`, `holidays` and `years` give the parts of a calendar, where a
//! rule stands in place of a zone, and `build` makes it, which the calls after it are asked of. The
//! line `ignore` gives the statuses that the level of the calls ignores; `stay` and `stays` add
//! stays, and `no_stays` takes all of them away. A line that isn't understood ends all.
//!
//! What owns much is given back by `drop`, whose proof stands once; at the end of its scope it
//! would be taken apart for each function's own proof.

mod asked;
mod limits;
mod parts;
mod spans;

use crate::hours::asked::answer;
use crate::hours::parts::Parts;
use case_text::{Answering, CaseFault, answer_lines};
use hours_core::Calendar;
use std::alloc::Global;

/// Adds each call with its answer.
pub(crate) fn run_case(alloc: Global, out: &mut String, lines: &str) -> Result<(), CaseFault> {
    let mut asked = Calendars {
        parts: Parts::new(alloc)?,
        calendar: None,
    };
    let answered = answer_lines(alloc, out, &mut asked, lines);
    drop(asked);
    answered
}

/// The parts so far, and the calendar that was built last.
#[derive(Drop)]
struct Calendars {
    parts: Parts,
    calendar: Option<Calendar>,
}

impl Answering for Calendars {
    type Failure = CaseFault;

    /// Takes a line that gives a part or builds the calendar, and adds any other with its answer.
    fn answer(&mut self, alloc: Global, out: &mut String, line: &str) -> Result<(), CaseFault> {
        if line == "build" {
            self.calendar = self.parts.build(alloc, out)?;
        } else if !self.parts.take(alloc, line)? {
            answer(alloc, out, &self.parts, self.calendar.as_ref(), line)?;
        }
        Ok(())
    }
}
