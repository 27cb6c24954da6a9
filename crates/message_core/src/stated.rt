//! How many bytes follow a head.
ghost use Rattle.std.specs.Prelude.{◌≡◌, ◌≤◌, Ok, Err, length, map, All, IfNone, IfSome};
ghost use Rattle.httparse.specs.Spans.{IsHeaderWithin, IsWithin, header_bytes, span_bytes};
ghost use Rattle.message_core.specs.Heading as form;
ghost use Rattle.message_core.specs.Limits.{limit_at, most_of};
ghost use Rattle.message_core.specs.Stated.{IsStated, States};

use crate::heading::stated_length;
use crate::limits::BodyLimit;
use httparse::Status;
use httparse::spans::{EMPTY_HEADER_SPAN, HeaderSpan, RequestSpans, parse_request};

/// How many bytes follow this head, as its lines state it. None where no body makes it a message:
/// these bytes are no head of at most 32 lines, or the length that it states is refused. Takes no
/// memory.
pub fn stated_body(head: &[u8], limit: BodyLimit) -> Option<u32>
    ensures states { States limit head.now result }
    ensures small { IfSome result (λ n. n ≤ most_of limit) }
{
    let mut room = [EMPTY_HEADER_SPAN; 32];
    match parse_request(head, &mut room) {
        Ok(Status::Complete(spans)) => { length_at(head, &room[..spans.headers], &spans, limit) }
        _ => None,
    }
}

/// The length that the lines state, if it isn't refused.
fn length_at(
    bytes: &[u8],
    lines: &[HeaderSpan],
    spans: &RequestSpans,
    limit: BodyLimit,
) -> Option<u32>
    requires lines { All (IsHeaderWithin (length bytes.now)) lines.now }
    requires path { IsWithin (length bytes.now) spans.now.path }
    ensures is { IsStated result (form.length_of
        (limit_at limit (span_bytes bytes.now spans.now.path))
        (map (header_bytes bytes.now) lines.now)) }
    ensures small { IfSome result (λ n. n ≤ most_of limit) }
{
    match stated_length(bytes, lines, limit.at(spans.path.of(bytes))) {
        Ok(length) => Some(length),
        Err(_) => None,
    }
}
