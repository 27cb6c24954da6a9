//! Calls on texts: their forms, and what they share.

use crate::words::texts_of;
use desk_words::number_of_word;
use std::alloc::{AllocError, Global};
use std::cmp::Ordering;
use text_core::{
    Text, is_among, is_name, is_right_name, is_subject, is_text, repeats_text, shares_text,
};

/// The answer to a call on one or two texts, where it is such a call.
pub(crate) fn form_answer(
    alloc: Global,
    call: &str,
    words: &[String],
) -> Result<Option<String>, AllocError> {
    let (text, other) = match words {
        [text] => (text.as_str(), ""),
        [text, other] => (text.as_str(), other.as_str()),
        _ => return Ok(None),
    };
    let answer = match call {
        "name" => yes_or_no(is_name(text)),
        "right" => yes_or_no(is_right_name(text)),
        "subject" => yes_or_no(is_subject(repeated(alloc, text, other)?.as_str())),
        "text" => yes_or_no(is_text(repeated(alloc, text, other)?.as_str())),
        "character" => character_answer(alloc, text)?,
        "order" => order_of(alloc, text, other)?,
        "number" => return number_answer(alloc, text),
        _ => match list_answer(alloc, call, text, other)? {
            Some(holds) => yes_or_no(holds),
            None => return Ok(None),
        },
    };
    Ok(Some(String::from_str(alloc, answer)?))
}

/// The answer to a call on lists of texts: of two, of one, or of one and a text that may be among
/// it, as two calls tell.
fn list_answer(
    alloc: Global,
    call: &str,
    list: &str,
    other: &str,
) -> Result<Option<bool>, AllocError> {
    let texts = texts_of(alloc, list)?;
    let others = texts_of(alloc, other)?;
    Ok(Some(match call {
        "repeats" => repeats_text(texts.as_slice()),
        "shares" => shares_text(texts.as_slice(), others.as_slice()),
        "same" => texts == others.clone()?,
        "among" => texts.contains(other) && is_among(texts.as_slice(), other),
        _ => return Ok(None),
    }))
}

pub(crate) fn yes_or_no(holds: bool) -> &'static str {
    if holds { "yes" } else { "no" }
}

/// The text as often as the word of digits says.
fn repeated(alloc: Global, times: &str, text: &str) -> Result<String, AllocError> {
    text.repeat(alloc, number_of_word(times).unwrap_or(0) as usize)
}

/// Where the character with that code may stand: in subjects, and so in texts too, in texts alone,
/// or in none.
fn character_answer(alloc: Global, code: &str) -> Result<&'static str, AllocError> {
    let mut text = String::new(alloc);
    let Some(character) = char::from_u32(number_of_word(code).unwrap_or(u32::MAX)) else {
        return Ok("no character");
    };
    text.push(character)?;
    Ok(match (is_subject(text.as_str()), is_text(text.as_str())) {
        (true, true) => "in subjects and texts",
        (false, true) => "in texts",
        (true, false) => "in subjects",
        (false, false) => "in none",
    })
}

/// How two texts compare.
fn order_of(alloc: Global, text: &str, other: &str) -> Result<&'static str, AllocError> {
    let text = Text::new(alloc, text)?;
    let other = Text::from(Text::new(alloc, other)?.into_string());
    Ok(match (text.cmp(&other), text == other) {
        (Ordering::Less, false) => "before",
        (Ordering::Equal, true) => "equal",
        (Ordering::Greater, false) => "after",
        _ => "neither",
    })
}

/// What number a word is.
fn number_answer(alloc: Global, word: &str) -> Result<Option<String>, AllocError> {
    match number_of_word(word) {
        Some(number) => Ok(Some(format!(in alloc; "{number}")?)),
        None => Ok(Some(String::from_str(alloc, "no number")?)),
    }
}
