//! A reply that came through a proxy, which writes its head anew and may add lines to it.

ghost use Rattle.desk_ask.specs.Proxied.{TellsJust, TellsWhatCame};

use client_core::Answered;
use desk_words::number_of_word;
use httparse::Status;
use httparse::spans::{EMPTY_HEADER_SPAN, HeaderSpan, parse_response};

/// How many lines a head may have.
const MOST_LINES: usize = 64;

/// The type of a desk's text.
const TYPE: &[u8] = b"text/plain; charset=utf-8";

/// What a reply is, as far as it came.
#[derive(Clone, Copy)]
pub enum Seen<'b> {
    /// It has its head, and a text as long as that states.
    Whole(Answered<'b>),
    /// More of it has to come.
    Part,
    /// It is none that a desk has sent.
    Other,
}

/// What a reply is whose head is read by HTTP's rules: of a code that a desk sends, of its type, with
/// a text that is as long as the head states. The text of a refusal has to begin as a desk's does. More
/// can't be told of who sent it.
pub fn seen_in(bytes: &[u8]) -> Seen<'_>
    ensures { TellsWhatCame bytes.now result }
{
    let mut lines = [EMPTY_HEADER_SPAN; MOST_LINES];
    match parse_response(bytes, &mut lines) {
        Ok(Status::Complete(head)) => {
            let length = stated_length(bytes, &lines, head.headers);
            seen_of(head.code, &bytes[head.len..], length)
        }
        Ok(Status::Partial) => Seen::Part,
        Err(_) => Seen::Other,
    }
}

/// What a reply is with this code and this text, of which so many bytes are stated.
fn seen_of(code: u16, text: &[u8], length: Option<u32>) -> Seen<'_>
    ensures { TellsJust code text.entry.now result }
{
    let Some(length) = length else {
        return Seen::Other;
    };
    if text.len() < length as usize {
        Seen::Part
    } else if text.len() == length as usize && is_told(code, text) {
        Seen::Whole(Answered { code, text })
    } else {
        Seen::Other
    }
}

/// The length that the first of these lines state, where they state one, and the type of a desk's text.
fn stated_length(bytes: &[u8], lines: &[HeaderSpan], count: usize) -> Option<u32> {
    let lines = lines.get(..count)?;
    let mut length = None;
    let mut is_typed = false;
    for line in lines {
        let name = bytes.get(line.name.start..line.name.end)?;
        let value = bytes.get(line.value.start..line.value.end)?;
        if name.eq_ignore_ascii_case(b"content-length") {
            if length.is_some() {
                return None;
            }
            length = Some(number_of_word(str::from_utf8(value).ok()?)?);
        } else if name.eq_ignore_ascii_case(b"content-type") {
            is_typed = value.eq_ignore_ascii_case(TYPE);
        } else if name.eq_ignore_ascii_case(b"transfer-encoding") {
            return None;
        }
    }
    if is_typed { length } else { None }
}

/// Whether a desk may tell this with that code.
fn is_told(code: u16, text: &[u8]) -> bool {
    match code {
        200 | 201 => true,
        400 | 403 | 404 | 405 | 409 | 503 => {
            [b"refused ".as_slice(), b"bad message ", b"bad request "]
                .iter()
                .any(|it| text.starts_with(it))
        }
        _ => false,
    }
}
