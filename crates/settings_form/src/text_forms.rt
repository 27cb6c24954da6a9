//! The forms of texts in settings: names, days, times, rights of moves.

ghost use Rattle.std.specs.Prelude.{◌≡◌, ◌<◌, ◌≤◌, slice_index};
ghost use Rattle.std.specs.List.{list_any};
ghost use Rattle.settings_form.specs.TextForms as spec;

use crate::form::TextForm;
use crate::grantee::grantee_of;
use days::{day_number, is_date};
use text_core::{is_digit, is_name};

/// The minutes of an hour.
const HOUR: u32 = 60;

/// Whether the text is of the form.
pub fn has_form(form: TextForm, text: &str) -> bool
    ensures { result ≡ spec.has_form form text.now }
{
    match form {
        TextForm::Any => true,
        TextForm::Name => is_name(text),
        TextForm::To => grantee_of(text).is_some(),
        TextForm::RightKey => is_right_key(text),
        TextForm::Day => is_day(text.as_bytes()),
        TextForm::Interval => is_interval(text.as_bytes()),
    }
}

/// What stands before the first space and after it.
pub fn cut(text: &str) -> (&str, &str)
    ensures before { result.0.now ≡ spec.before_space text.now }
    ensures after { result.1.now ≡ spec.after_space text.now }
{
    match text.split_once(' ') {
        Some(parts) => parts,
        None => (text, ""),
    }
}

fn is_word(text: &str) -> bool
    ensures { result ≡ spec.is_word text.now }
{
    1 <= text.len() && !has_space(text.as_bytes())
}

fn has_space(text: &[u8]) -> bool
    ensures { result ≡ list_any spec.is_space text.now }
{
    text.iter().any(|b| *b == b' ')
}

fn is_right_key(text: &str) -> bool
    ensures { result ≡ spec.is_right_key text.now }
{
    let (from, rest) = cut(text);
    let (arrow, to) = cut(rest);
    is_word(from) && arrow == "->" && is_word(to)
}

fn is_like(pattern: u8, byte: u8) -> bool
    ensures { result ≡ spec.is_like pattern byte }
{
    if pattern == b'0' {
        is_digit(byte)
    } else {
        byte == pattern
    }
}

fn fits(pattern: &[u8], text: &[u8]) -> bool
    ensures { result ≡ spec.fits pattern.now text.now }
{
    match pattern {
        [] => text.is_empty(),
        [p, patterns @ ..] => match text {
            [] => false,
            [b, bytes @ ..] => is_like(*p, *b) && fits(patterns, bytes),
        },
    }
}

fn byte_at(text: &[u8], index: usize) -> u8
    ensures { result ≡ slice_index text.now index }
{
    if index < text.len() { text[index] } else { 0 }
}

fn two(text: &[u8], index: usize) -> u32
    requires { index < 100 }
    ensures value { result ≡ spec.two text.now index }
    ensures small { result < 3000 }
{
    u32::from(byte_at(text, index).saturating_sub(b'0')) * 10
        + u32::from(byte_at(text, index + 1).saturating_sub(b'0'))
}

/// The year of a day.
fn year_of(text: &[u8]) -> u32
    ensures { result ≡ spec.year_of text.now }
{
    two(text, 0) * 100 + two(text, 2)
}

fn is_day(text: &[u8]) -> bool
    ensures { result ≡ spec.is_day text.now }
{
    fits(b"0000-00-00", text) && is_date(year_of(text), two(text, 5), two(text, 8))
}

/// The number of the day that a text says, counted from 1970-01-01.
pub fn day_of(text: &str) -> u32
    ensures { result ≡ spec.day_of text.now }
{
    let text = text.as_bytes();
    day_number(year_of(text), two(text, 5), two(text, 8))
}

fn is_time(hour: u32, minute: u32) -> bool
    ensures { result ≡ spec.is_time hour minute }
{
    hour <= 23 && minute <= 59 || hour == 24 && minute == 0
}

fn is_interval(text: &[u8]) -> bool
    ensures { result ≡ spec.is_interval text.now }
{
    fits(b"00:00-00:00", text)
        && is_time(two(text, 0), two(text, 3))
        && is_time(two(text, 6), two(text, 9))
}

/// The minute of a time, counted from 00:00.
fn minute_of(hour: u32, minute: u32) -> u16
    ensures { result ≡ spec.minute_of hour minute }
{
    if is_time(hour, minute) {
        (hour * HOUR + minute) as u16
    } else {
        0
    }
}

/// The minutes of the day between which an interval's text lies; of another text 0 and 0.
pub fn interval_of(text: &str) -> (u16, u16)
    ensures { result ≡ spec.interval_of text.now }
{
    let text = text.as_bytes();
    (
        minute_of(two(text, 0), two(text, 3)),
        minute_of(two(text, 6), two(text, 9)),
    )
}
