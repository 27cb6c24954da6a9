//! Cases of lines, each of which is answered.

use std::alloc::{AllocError, Global};

/// What answers lines, one after the other.
pub trait Answering {
    /// Why a case ends.
    type Failure: From<AllocError> + Drop;

    /// Adds the answer to a line.
    fn answer(&mut self, alloc: Global, out: &mut String, line: &str) -> Result<(), Self::Failure>;
}

/// Adds the answer to each line. An empty line and one that begins with `#` are added as they are.
pub fn answer_lines<A: Answering>(
    alloc: Global,
    out: &mut String,
    answering: &mut A,
    lines: &str,
) -> Result<(), A::Failure> {
    for line in lines.lines() {
        if line.is_empty() || line.starts_with('#') {
            writeln!(out, "{line}")?;
        } else {
            answering.answer(alloc, out, line)?;
        }
    }
    Ok(())
}
