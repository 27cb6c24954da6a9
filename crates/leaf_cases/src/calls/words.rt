//! Words: lines that are split into them, and commands that they spell.

use desk_words::{WordsFault, command_of_words, words_of};
use std::alloc::{AllocError, Global};

/// The words of a line, each in `<` and `>`, or its fault.
pub(crate) fn words_answer(alloc: Global, line: &str) -> Result<String, AllocError> {
    match words_of(alloc, line) {
        Ok(words) => {
            let mut answer = format!(in alloc; "{}", words.len())?;
            for word in words.as_slice() {
                write!(answer, " <{}>", word.as_str())?;
            }
            Ok(answer)
        }
        Err(fault) => words_fault(alloc, fault),
    }
}

/// Whether the words of a line spell a command, or the fault.
pub(crate) fn command_answer(alloc: Global, line: &str) -> Result<String, AllocError> {
    let spelled = match words_of(alloc, line) {
        Ok(words) => command_of_words(alloc, words.as_slice()),
        Err(fault) => Err(fault),
    };
    match spelled {
        Ok(_) => String::from_str(alloc, "a command"),
        Err(fault) => words_fault(alloc, fault),
    }
}

fn words_fault(alloc: Global, fault: WordsFault) -> Result<String, AllocError> {
    let number = fault.number();
    let name = fault.name();
    format!(in alloc; "{number} {name}: {fault}")
}
