//! The line of a message.
ghost use Rattle.std.specs.Prelude.{◌≡◌, ◌++◌, ◌+◌, ◌%◌, IfOk, IfSome, codes, decimal};
ghost use Rattle.hours_core.specs.Date.{text_of_minute, two_digits};
ghost use Rattle.log_core.specs.Log as form;

use hours_core::{Minute, minute_text};
use itoa::Buffer;
use std::alloc::AllocError;

/// When a message was answered, as text.
pub type Stamp = [u8; 20];

/// The time of so many seconds since 1970-01-01 00:00 UTC, as RFC 3339 has it. None before the year
/// 2000 and after 2099.
#[tactic(auto, unfolding(crate::specs::Log::stamp_text))]
pub fn stamp_of(seconds: u64) -> Option<Stamp>
    ensures { IfSome result (λ stamp. stamp ≡ form.stamp_text seconds) }
{
    let Ok(minute) = u32::try_from(seconds / 60) else {
        return None;
    };
    let Some(minute) = Minute::new(minute) else {
        return None;
    };
    let text = minute_text(minute);
    let second = (seconds % 60) as u8;
    Some([
        text[0],
        text[1],
        text[2],
        text[3],
        text[4],
        text[5],
        text[6],
        text[7],
        text[8],
        text[9],
        b'T',
        text[11],
        text[12],
        text[13],
        text[14],
        text[15],
        b':',
        b'0' + second / 10,
        b'0' + second % 10,
        b'Z',
    ])
}

/// Puts a line at the end: the time, what is noted, how many bytes the reply has, and the
/// milliseconds that it took.
pub fn put_line(
    out: &mut Vec<u8>,
    stamp: &[u8],
    note: &[u8],
    bytes: u64,
    micros: u64,
) -> Result<(), AllocError>
    ensures { IfOk result (λ _. out.new.items
        ≡ out.old.items ++ form.line_text stamp.now note.now bytes micros) }
{
    put_front(out, stamp, note)?;
    put_back(out, bytes, micros)
}

/// The time and the note.
#[tactic(auto, unfolding(crate::specs::Log::front_text))]
fn put_front(out: &mut Vec<u8>, stamp: &[u8], note: &[u8]) -> Result<(), AllocError>
    ensures { IfOk result (λ _. out.new.items ≡ out.old.items ++ form.front_text stamp.now note.now) }
{
    out.extend_from_slice(stamp)?;
    out.extend_from_slice(b" ")?;
    out.extend_from_slice(note)?;
    out.extend_from_slice(b" ")?;
    Ok(())
}

/// How many bytes the reply has, and the milliseconds that it took.
#[tactic(auto, unfolding(crate::specs::Log::back_text))]
fn put_back(out: &mut Vec<u8>, bytes: u64, micros: u64) -> Result<(), AllocError>
    ensures { IfOk result (λ _. out.new.items ≡ out.old.items ++ form.back_text bytes micros) }
{
    put_number(out, bytes)?;
    out.extend_from_slice(b" ")?;
    put_millis(out, micros)?;
    out.extend_from_slice(b"\n")?;
    Ok(())
}

fn put_number(out: &mut Vec<u8>, number: u64) -> Result<(), AllocError>
    ensures { IfOk result (λ _. out.new.items ≡ out.old.items ++ decimal number) }
{
    let mut buffer = Buffer::new();
    out.extend_from_slice(buffer.format(number).as_bytes())?;
    Ok(())
}

/// Milliseconds, with three digits behind the point.
#[tactic(auto, unfolding(crate::specs::Log::millis_text))]
fn put_millis(out: &mut Vec<u8>, micros: u64) -> Result<(), AllocError>
    ensures { IfOk result (λ _. out.new.items ≡ out.old.items ++ form.millis_text micros) }
{
    put_number(out, micros / 1000)?;
    out.extend_from_slice(b".")?;
    let rest = micros % 1000;
    let digits = [digit(rest / 100), digit(rest / 10), digit(rest)];
    out.extend_from_slice(&digits)?;
    Ok(())
}

/// The last digit of a number, as a character.
fn digit(n: u64) -> u8
    ensures { result ≡ 48 + n % 10 }
{
    b'0' + (n % 10) as u8
}
