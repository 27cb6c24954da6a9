//! What the head of a message says.
ghost use Rattle.std.specs.Prelude.{◌≡◌, ◌≢◌, ◌≤◌, false, Ok, Err, length, map, All, IfOk, IfErr};
ghost use Rattle.std.specs.Option.{option_map};
ghost use Rattle.httparse.specs.Spans.{IsHeaderWithin, IsWithin, header_bytes, span_bytes};
ghost use Rattle.message_core.specs.Fault.{tells_failed_read};
ghost use Rattle.message_core.specs.Head.{IsHead};
ghost use Rattle.message_core.specs.Heading as form;
ghost use Rattle.message_core.specs.Heading.{IsHeadingOf};
ghost use Rattle.message_core.specs.Limits.{most_of};

use crate::fault::WireFault;
use crate::limits::BodyLimit;
use crate::lines::{count_named, first_named};
use httparse::Status;
use httparse::spans::{EMPTY_HEADER_SPAN, HeaderSpan, RequestSpans, parse_request};
use std::alloc::{AllocError, Global};
use std::str;
use text_core::{Sequence, Text};

/// What the head of a message says.
#[derive(Drop)]
pub(crate) struct Heading {
    pub(crate) method: Sequence<u8>,
    pub(crate) target: Sequence<u8>,
    pub(crate) token: Option<Text>,
    pub(crate) length: u32,
}

/// The number that the digits of a value give, or one over the limit where it is greater; none where
/// the value isn't one or more digits.
fn number_of_value(value: &[u8], limit: u32) -> Option<u32>
    requires { limit ≤ 262144 }
    ensures { result ≡ form.number_within limit value.now }
{
    if value.is_empty() {
        return None;
    }
    let mut number = 0u32;
    for b in value {
        if *b < b'0' || *b > b'9' {
            return None;
        }
        number = (number * 10 + (*b - b'0') as u32).min(limit + 1);
    }
    Some(number)
}

/// The length that the value of the one line states; 0 without a line.
fn length_of_value(value: Option<&[u8]>, limit: u32) -> Result<u32, WireFault>
    requires { limit ≤ 262144 }
    ensures small { IfOk result (λ n. n ≤ limit) }
    ensures length { result ≡ form.length_in limit (option_map (λ v. v.now) value.entry) }
    ensures unread { tells_failed_read result ≡ false }
{
    let Some(value) = value else {
        return Ok(0);
    };
    match number_of_value(value, limit) {
        Some(number) => {
            if number <= limit {
                Ok(number)
            } else {
                Err(WireFault::TooLong)
            }
        }
        None => Err(WireFault::BadLength),
    }
}

/// The length of the body that follows, as the lines state it.
pub(crate) fn stated_length(
    bytes: &[u8],
    lines: &[HeaderSpan],
    limit: u32,
) -> Result<u32, WireFault>
    requires lines { All (IsHeaderWithin (length bytes.now)) lines.now }
    requires limit { limit ≤ 262144 }
    ensures small { IfOk result (λ n. n ≤ limit) }
    ensures length { result ≡ form.length_of limit (map (header_bytes bytes.now) lines.now) }
    ensures unread { tells_failed_read result ≡ false }
{
    if count_named(bytes, lines, "Transfer-Encoding") > 0 {
        return Err(WireFault::BadLength);
    }
    if count_named(bytes, lines, "Content-Length") > 1 {
        return Err(WireFault::BadLength);
    }
    length_of_value(first_named(bytes, lines, "Content-Length"), limit)
}

/// The text that the bytes are, if they are one.
fn text_of(value: Option<&[u8]>) -> Option<&str>
    ensures { option_map (λ t. t.now) result ≡ form.text_in (option_map (λ v. v.now) value.entry) }
{
    let Some(value) = value else {
        return None;
    };
    match str::from_utf8(value) {
        Ok(text) => Some(text),
        Err(_) => None,
    }
}

/// The text of the one line of a token.
fn stated_token<'b>(bytes: &'b [u8], lines: &[HeaderSpan]) -> Option<&'b str>
    requires { All (IsHeaderWithin (length bytes.now)) lines.now }
    ensures { option_map (λ t. t.now) result
        ≡ form.token_of (map (header_bytes bytes.now) lines.now) }
{
    if count_named(bytes, lines, "Desk-Token") > 1 {
        return None;
    }
    text_of(first_named(bytes, lines, "Desk-Token"))
}

/// A copy of the text, if there is one.
fn owned_text(alloc: Global, text: Option<&str>) -> Result<Option<Text>, AllocError>
    ensures { IfOk result (λ t. t ≡ option_map (λ s. s.now) text.entry) }
{
    match text {
        Some(text) => Ok(Some(Text::new(alloc, text)?)),
        None => Ok(None),
    }
}

/// A copy of the bytes.
fn owned_bytes(alloc: Global, bytes: &[u8]) -> Result<Sequence<u8>, AllocError>
    ensures { IfOk result (λ s. s ≡ bytes.now) }
{
    Ok(Sequence::from(bytes.to_vec(alloc)?))
}

/// What the lines of a head say.
fn heading_at(
    alloc: Global,
    bytes: &[u8],
    lines: &[HeaderSpan],
    spans: &RequestSpans,
    limit: BodyLimit,
) -> Result<Heading, WireFault>
    requires lines { All (IsHeaderWithin (length bytes.now)) lines.now }
    requires method { IsWithin (length bytes.now) spans.now.method }
    requires path { IsWithin (length bytes.now) spans.now.path }
    ensures small { IfOk result (λ heading. heading.length ≤ most_of limit) }
    ensures ok { IfOk result (λ heading. form.heading_by limit (span_bytes bytes.now spans.now.method)
        (span_bytes bytes.now spans.now.path) (map (header_bytes bytes.now) lines.now)
        ≡ Ok heading) }
    ensures err { IfErr result (λ fault. fault ≢ WireFault.NoMemory
        → form.heading_by limit (span_bytes bytes.now spans.now.method)
        (span_bytes bytes.now spans.now.path) (map (header_bytes bytes.now) lines.now)
        ≡ Err fault) }
    ensures unread { tells_failed_read result ≡ false }
{
    let length = stated_length(bytes, lines, limit.at(spans.path.of(bytes)))?;
    let token = owned_text(alloc, stated_token(bytes, lines))?;
    let method = owned_bytes(alloc, spans.method.of(bytes))?;
    let target = owned_bytes(alloc, spans.path.of(bytes))?;
    Ok(Heading {
        method,
        target,
        token,
        length,
    })
}

/// What a head says.
pub(crate) fn heading_of(
    alloc: Global,
    bytes: &[u8],
    limit: BodyLimit,
) -> Result<Heading, WireFault>
    requires { IsHead bytes.now }
    ensures small { IfOk result (λ heading. heading.length ≤ most_of limit) }
    ensures ok { IfOk result (λ heading. IsHeadingOf limit bytes.now (Ok heading)) }
    ensures err { IfErr result (λ fault. fault ≢ WireFault.NoMemory
        → IsHeadingOf limit bytes.now (Err fault)) }
    ensures unread { tells_failed_read result ≡ false }
{
    let mut room = [EMPTY_HEADER_SPAN; 32];
    match parse_request(bytes, &mut room) {
        Ok(Status::Complete(spans)) => {
            heading_at(alloc, bytes, &room[..spans.headers], &spans, limit)
        }
        _ => unreachable!(),
    }
}
