//! Texts of settings that are cut off, or changed in a byte.

use settings_core::{Settings, SettingsFault};
use std::alloc::{AllocError, Global};

/// The bytes that take the place of one of a text: a quote, an opening bracket, an equals sign, a
/// line feed, and one that no text in UTF-8 has.
const OTHERS: [u8; 5] = [b'"', b'[', b'=', b'\n', 0xff];

/// Answers a question about the text cut off or changed: how many of the texts that are made of it
/// are read as settings or have a fault, and how many there are.
pub(crate) fn ask(
    alloc: Global,
    out: &mut String,
    text: &str,
    question: &str,
) -> Result<(), AllocError> {
    if question == "cuts" {
        let read = read_of(alloc, text.as_bytes(), None)?;
        writeln!(out, "cuts: {read} of {}", text.len())?;
    }
    if question == "changes" {
        for byte in OTHERS {
            let read = read_of(alloc, text.as_bytes(), Some(byte))?;
            writeln!(out, "changes to {byte}: {read} of {}", text.len())?;
        }
    }
    Ok(())
}

/// At how many places the text that is cut off there, or has that byte there, is read.
fn read_of(alloc: Global, text: &[u8], byte: Option<u8>) -> Result<usize, AllocError> {
    let mut read = 0_usize;
    for place in 0..text.len() {
        let changed = changed(alloc, text, place, byte)?;
        if is_read(alloc, changed.as_slice()) {
            read = read.saturating_add(1);
        }
    }
    Ok(read)
}

/// The text with another byte at a place, or cut off there.
fn changed(
    alloc: Global,
    text: &[u8],
    place: usize,
    byte: Option<u8>,
) -> Result<Vec<u8>, AllocError> {
    let mut changed = Vec::from_slice(alloc, text)?;
    match byte {
        Some(byte) => {
            if let Some(old) = changed.get_mut(place) {
                *old = byte;
            }
        }
        None => changed.truncate(place),
    }
    Ok(changed)
}

/// Whether the bytes are settings or have a fault other than out of memory.
fn is_read(alloc: Global, bytes: &[u8]) -> bool {
    match Settings::read(alloc, bytes) {
        Ok(_) => true,
        Err(fault) => fault != SettingsFault::NoMemory,
    }
}
