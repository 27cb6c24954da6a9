//! A case: its parts.

use crate::expansion::{Named, expanded};
use std::alloc::{AllocError, Global};

/// What begins the name of a part.
const BEGIN: &str = "=== ";

/// The part that is kept as it is written, since each message ends by itself.
const AS_WRITTEN: &str = "messages";

/// A part, with what its words in `<<` and `>>` stand for.
#[derive(Drop)]
struct Part<'c> {
    name: &'c str,
    text: Vec<u8>,
}

/// A case, and the texts that it may name.
#[derive(Drop)]
pub struct Case<'c> {
    /// The texts of the folder `texts`.
    pub named: &'c [Named],
    parts: Vec<Part<'c>>,
}

impl<'c> Case<'c> {
    /// The case that a text states.
    pub fn read(alloc: Global, named: &'c [Named], text: &'c str) -> Result<Case<'c>, AllocError> {
        let mut parts = Vec::new(alloc);
        for piece in text.split(BEGIN) {
            if let Some((name, part)) = piece.split_once('\n') {
                let text = if name == AS_WRITTEN {
                    Vec::from_slice(alloc, part.as_bytes())?
                } else {
                    expanded(alloc, named, part)?
                };
                parts.push(Part { name, text })?;
            }
        }
        Ok(Case { named, parts })
    }

    /// The part of that name, where it is there.
    pub fn part(&self, name: &str) -> Option<&[u8]> {
        for part in self.parts.as_slice() {
            if part.name == name {
                return Some(part.text.as_slice());
            }
        }
        None
    }

    /// The part of that name as a text, which is empty where it isn't there.
    pub fn text(&self, name: &str) -> &str {
        str_of(self.part(name).unwrap_or(b""))
    }

    /// The first of these names that one of its parts has, or an empty one.
    pub fn kind(&self, kinds: &[&'static str]) -> &'static str {
        for kind in kinds {
            if self.part(kind).is_some() {
                return kind;
            }
        }
        ""
    }
}

/// The bytes as a text, which is empty where they are none.
pub fn str_of(bytes: &[u8]) -> &str {
    str::from_utf8(bytes).unwrap_or("")
}
