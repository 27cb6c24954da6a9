//! What is wanted of a case, beside what comes of it.

use crate::case::Case;
use crate::fault::CaseFault;
use crate::words::number;
use std::alloc::{AllocError, Global};

/// Where what comes of a case first differs from what is wanted; none where it doesn't.
pub(crate) fn difference(
    alloc: Global,
    case: &Case<'_>,
    told: &str,
) -> Result<Option<String>, CaseFault> {
    let wanted = case.text("wanted");
    match case.text("ends").trim_end() {
        "" => Ok(told_difference(alloc, told, wanted)?),
        most => {
            let ends = ends_of(alloc, told, number(most)? as usize)?;
            Ok(told_difference(alloc, ends.as_str(), wanted)?)
        }
    }
}

fn told_difference(alloc: Global, told: &str, wanted: &str) -> Result<Option<String>, AllocError> {
    if told == wanted {
        return Ok(None);
    }
    let (number, line, other) = first_difference(told, wanted);
    let text = format!(in alloc; "line {number} is {line:?}, and {other:?} is wanted")?;
    Ok(Some(text))
}

/// How many lines a text has and its sum, and so many of its lines at the front and at the end.
fn ends_of(alloc: Global, text: &str, most: usize) -> Result<String, AllocError> {
    let mut ends = String::new(alloc);
    let count = text.lines().count();
    writeln!(ends, "{count} lines, sum {}", sum_of(text))?;
    for (i, line) in text.lines().enumerate() {
        if i < most || i >= count.saturating_sub(most) {
            writeln!(ends, "{line}")?;
        }
    }
    Ok(ends)
}

/// The sum of a text: from 0 on, for each byte, 31 times the sum before and the byte, below 2^32.
fn sum_of(text: &str) -> u32 {
    let mut sum = 0u32;
    for byte in text.bytes() {
        sum = sum.wrapping_mul(31).wrapping_add(u32::from(byte));
    }
    sum
}

/// The number of the first line that differs, with that line of both texts.
fn first_difference<'t>(text: &'t str, other: &'t str) -> (u32, &'t str, &'t str) {
    let mut number = 0u32;
    let mut others = other.split('\n');
    for line in text.split('\n') {
        number = number.saturating_add(1);
        let wanted = others.next().unwrap_or("");
        if line != wanted {
            return (number, line, wanted);
        }
    }
    (number.saturating_add(1), "", others.next().unwrap_or(""))
}
