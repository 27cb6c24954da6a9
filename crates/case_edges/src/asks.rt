//! Commands with their moments and callers, as lines of words.

use crate::failure::Failure;
use case_text::number;
use desk_core::Command;
use std::alloc::Global;
use wire_core::{command_of_words, words_of};

/// A moment, a caller and a command.
pub(crate) type Ask = (u32, String, Command);

/// What the lines ask, in their order.
pub(crate) fn asks_of(alloc: Global, lines: &str) -> Result<Vec<Ask>, Failure> {
    let mut asks = Vec::new(alloc);
    for line in lines.lines() {
        asks.push(ask_of(alloc, line)?)?;
    }
    Ok(asks)
}

/// What a line `MOMENT CALLER WORDS ..` asks.
pub(crate) fn ask_of(alloc: Global, line: &str) -> Result<Ask, Failure> {
    let words = words_of(alloc, line)?;
    match words.as_slice() {
        [at, caller, command @ ..] => {
            let at = number(at.as_str())?;
            let caller = String::from_str(alloc, caller.as_str())?;
            Ok((at, caller, command_of_words(alloc, command)?))
        }
        _ => Err(Failure::BadLine),
    }
}
