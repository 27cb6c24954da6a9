//! Questions about sessions: who is signed in by a cookie, and which cookie one is given.

use case_text::Words;
use hours_core::Minute;
use session_core::{Lasts, caller_of, signed_in};
use settings_core::Settings;
use std::alloc::{AllocError, Global};
use text_core::Text;

/// Answers a question about a session, and passes over what is none:
///
/// | Question | Answer |
/// |---|---|
/// | `session TOKEN MOMENT day` | the cookie of one who signs in by the token, for 12 hours |
/// | `session TOKEN MOMENT month` | the same, for 30 days |
/// | `caller COOKIE MINUTE` | the person for whom the cookie stands |
pub(crate) fn ask(
    alloc: Global,
    out: &mut String,
    settings: &Settings,
    question: &str,
) -> Result<(), AllocError> {
    let mut words = Words::of(question);
    let (call, text) = (words.next(), words.next());
    let answer = match call {
        "session" => session(alloc, settings, text, words)?,
        "caller" => caller_of(alloc, settings, text, words.rest.parse().unwrap_or(0))?,
        _ => return Ok(()),
    };
    match answer {
        Some(answer) => writeln!(out, "{question}: {}", answer.as_str()),
        None => writeln!(out, "{question}: -"),
    }
}

fn session(
    alloc: Global,
    settings: &Settings,
    token: &str,
    words: Words<'_>,
) -> Result<Option<Text>, AllocError> {
    let mut words = words;
    let Some(moment) = Minute::new(words.next().parse().unwrap_or(0)) else {
        return Ok(None);
    };
    let lasts = if words.rest == "month" {
        Lasts::Month
    } else {
        Lasts::Day
    };
    signed_in(alloc, settings, token, moment, lasts)
}
