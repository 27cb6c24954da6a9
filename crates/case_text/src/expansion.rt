//! Texts of cases in which words in `<<` and `>>` stand for others.

use std::alloc::{AllocError, Global};

/// A text that cases name, by the last name of its file.
#[derive(Drop)]
pub struct Named {
    pub file: String,
    pub text: String,
}

/// The text whose words in `<<` and `>>` stand for others.
pub fn expanded(alloc: Global, named: &[Named], text: &str) -> Result<Vec<u8>, AllocError> {
    let mut case = Vec::new(alloc);
    for piece in text.split("<<") {
        match piece.split_once(">>") {
            Some(("end", _)) => return Ok(case),
            Some((word, plain)) => {
                put_word(alloc, &mut case, named, word)?;
                case.extend_from_slice(plain.as_bytes())?;
            }
            None => case.extend_from_slice(piece.as_bytes())?,
        }
    }
    Ok(case)
}

/// Adds what a word stands for, or nothing for a word that stands for nothing.
fn put_word(
    alloc: Global,
    case: &mut Vec<u8>,
    named: &[Named],
    word: &str,
) -> Result<(), AllocError> {
    if let Some((times, text)) = word.split_once('*') {
        return put_repeated(alloc, case, times.parse().unwrap_or(0), text);
    }
    if let Some(byte) = word.strip_prefix("byte ") {
        case.push(byte.parse().unwrap_or(0))?;
        return Ok(());
    }
    for text in named {
        if text.file.as_str().rsplit('/').next() == Some(word) {
            case.extend_from_slice(text.text.as_bytes())?;
        }
    }
    Ok(())
}

/// Adds a text that number of times, with the number of the time, from 1, for each `@`, and the
/// number before it for each `%`.
fn put_repeated(
    alloc: Global,
    case: &mut Vec<u8>,
    times: u32,
    text: &str,
) -> Result<(), AllocError> {
    for time in 0..times {
        for byte in text.bytes() {
            match byte {
                b'%' => put_number(alloc, case, u64::from(time))?,
                b'@' => put_number(alloc, case, u64::from(time) + 1)?,
                _ => case.push(byte)?,
            }
        }
    }
    Ok(())
}

fn put_number(alloc: Global, case: &mut Vec<u8>, number: u64) -> Result<(), AllocError> {
    let digits = format!(in alloc; "{number}")?;
    case.extend_from_slice(digits.as_bytes())
}
