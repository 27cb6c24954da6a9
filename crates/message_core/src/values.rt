//! What the header lines of a head say, by their names.
ghost use Rattle.std.specs.Prelude.{◌≡◌, ◌≤◌, [], All, length, map, IfOk};
ghost use Rattle.std.specs.Option.{option_map};
ghost use Rattle.httparse.specs.Grammar.{RequestHead};
ghost use Rattle.httparse.specs.Spans.{IsHeaderWithin, header_bytes};
ghost use Rattle.message_core.specs.Head.{StartsWith};
ghost use Rattle.message_core.specs.Request as form;

use crate::lines::{count_named, first_named, is_line_named};
use httparse::Status;
use httparse::spans::{EMPTY_HEADER_SPAN, HeaderSpan, parse_request};
use std::alloc::{AllocError, Global};

/// The value of the one header line of that name, without regard to ASCII case; none where the
/// head has no such line, or more than one. Takes no memory.
pub fn header_value<'b>(head: &'b [u8], name: &str) -> Option<&'b [u8]>
    ensures { (h : RequestHead) → StartsWith head.now h []
        → option_map (λ v. v.now) result ≡ form.value_in h name.now }
{
    let mut room = [EMPTY_HEADER_SPAN; 32];
    match parse_request(head, &mut room) {
        Ok(Status::Complete(spans)) => one_named(head, &room[..spans.headers], name),
        _ => None,
    }
}

/// The values of all header lines of that name, without regard to ASCII case, in their order.
pub fn header_values<'b>(
    alloc: Global,
    head: &'b [u8],
    name: &str,
) -> Result<Vec<&'b [u8]>, AllocError>
    ensures { (h : RequestHead) → StartsWith head.now h []
        → IfOk result (λ values. map (λ v. v.now) values.items ≡ form.values_in h name.now) }
{
    let mut room = [EMPTY_HEADER_SPAN; 32];
    match parse_request(head, &mut room) {
        Ok(Status::Complete(spans)) => all_named(alloc, head, &room[..spans.headers], name),
        _ => Ok(Vec::new(alloc)),
    }
}

/// The value of the one line of that name.
fn one_named<'b>(bytes: &'b [u8], lines: &[HeaderSpan], name: &str) -> Option<&'b [u8]>
    requires { All (IsHeaderWithin (length bytes.now)) lines.now }
    ensures { option_map (λ v. v.now) result
        ≡ form.one_value name.now (map (header_bytes bytes.now) lines.now) }
{
    if count_named(bytes, lines, name) > 1 {
        return None;
    }
    first_named(bytes, lines, name)
}

/// The values of all lines of that name.
fn all_named<'b>(
    alloc: Global,
    bytes: &'b [u8],
    lines: &[HeaderSpan],
    name: &str,
) -> Result<Vec<&'b [u8]>, AllocError>
    requires { All (IsHeaderWithin (length bytes.now)) lines.now }
    ensures { IfOk result (λ values. map (λ v. v.now) values.items
        ≡ form.all_values name.now (map (header_bytes bytes.now) lines.now)) }
{
    let mut values = Vec::new(alloc);
    for line in lines {
        if is_line_named(bytes, line, name) {
            values.push(line.value.of(bytes))?;
        }
    }
    Ok(values)
}
