//! The words of a line, one after the other, each before a space.

use crate::fault::CaseFault;
use std::alloc::{AllocError, Global};

/// The words of a line that are left.
#[derive(Clone, Copy)]
pub struct Words<'l> {
    /// What is left of the line.
    pub rest: &'l str,
}

impl<'l> Words<'l> {
    /// The words of the line.
    pub fn of(line: &'l str) -> Words<'l> {
        Words { rest: line }
    }

    /// The next word, which is empty where none is left.
    pub fn next(&mut self) -> &'l str {
        let (word, rest) = self.rest.split_once(' ').unwrap_or((self.rest, ""));
        self.rest = rest;
        word
    }

    /// The next word, which spells a number.
    pub fn count(&mut self) -> Result<u32, CaseFault> {
        number(self.next())
    }

    /// The next word, which spells a number that may be below zero.
    pub fn whole(&mut self) -> Result<i64, CaseFault> {
        whole(self.next())
    }
}

/// The number that the word spells.
pub fn number(word: &str) -> Result<u32, CaseFault> {
    Ok(word.parse::<u32>()?)
}

/// The same, where it may be below zero.
pub fn whole(word: &str) -> Result<i64, CaseFault> {
    Ok(word.parse::<i64>()?)
}

/// The text with another word in the place of each `word`.
pub fn replaced(alloc: Global, text: &str, word: &str, other: &str) -> Result<String, AllocError> {
    let mut pieces = Vec::new(alloc);
    for piece in text.split(word) {
        pieces.push(piece)?;
    }
    pieces.as_slice().join(alloc, other)
}
