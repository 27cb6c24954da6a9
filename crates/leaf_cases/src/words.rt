//! What words of a line spell.

use case_text::{CaseFault, number};
use hours_core::Minute;
use std::alloc::{AllocError, Global};
use text_core::{Text, Texts};

/// The moment that the word spells.
pub(crate) fn moment(word: &str) -> Result<Minute, CaseFault> {
    Minute::new(number(word)?).ok_or(CaseFault::BadLine)
}

/// The words of a line that aren't empty, as texts.
pub(crate) fn texts_of(alloc: Global, line: &str) -> Result<Texts, AllocError> {
    let mut texts = Vec::new(alloc);
    for word in line.split(' ') {
        if !word.is_empty() {
            texts.push(Text::new(alloc, word)?)?;
        }
    }
    Ok(Texts::from(texts))
}
