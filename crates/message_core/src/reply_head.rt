//! The head of a reply: the one place where its bytes are written.
ghost use Rattle.std.specs.Prelude.{◌≡◌, ◌++◌, ◌+◌, ◌≤◌, ◌<◌, [], length, decimal};
ghost use Rattle.std.specs.Prelude.{OnErr, OnOk, unwrap_or};
ghost use Rattle.std.specs.Vec.{vec_capacity, vec_len};
ghost use Rattle.http.specs.StatusCode.{IsStatusCode, reason_phrase};
ghost use Rattle.message_core.specs.ReplyHead as form;

use http::StatusCode;
use itoa::Buffer;
use std::alloc::AllocError;

/// Puts what a head begins with at the end of what is there: its status line, with a code of HTTP, and
/// the lines of the type and the length of the body. `AllocError` only where there is no room, and no
/// memory for it; a part may stand there then.
pub fn start_head(out: &mut Vec<u8>, status: u16, kind: &str, bytes: u64) -> Result<(), AllocError>
    requires { IsStatusCode status }
    ensures added { OnOk result (out.new.items
        ≡ out.old.items ++ form.head_start status kind.now bytes) }
    ensures full { OnErr result (vec_capacity out.old
        < vec_len out.old + length (form.head_start status kind.now bytes)) }
    ensures capacity { vec_capacity out.old ≤ vec_capacity out.new }
{
    add_status_line(out, status)?;
    add_content_type_line(out, kind)?;
    add_content_length_line(out, bytes)
}

/// Puts what a head ends with at the end: that nothing more is sent on the connection, and the empty
/// line. `AllocError` as with `start_head`.
#[tactic(auto, unfolding(crate::specs::ReplyHead::last_line))]
pub fn end_head(out: &mut Vec<u8>) -> Result<(), AllocError>
    ensures added { OnOk result (out.new.items ≡ out.old.items ++ form.last_line) }
    ensures full { OnErr result (vec_capacity out.old < vec_len out.old + length form.last_line) }
    ensures capacity { vec_capacity out.old ≤ vec_capacity out.new }
{
    add_text(out, "Connection: close\r\n\r\n")
}

/// Puts a text at the end, as a line of a head or a part of one. `AllocError` as with `start_head`.
pub fn add_text(out: &mut Vec<u8>, text: &str) -> Result<(), AllocError>
    ensures added { OnOk result (out.new.items ≡ out.old.items ++ text.now) }
    ensures full { OnErr result (vec_capacity out.old < vec_len out.old + length text.now) }
    ensures capacity { vec_capacity out.old ≤ vec_capacity out.new }
{
    out.extend_from_slice(text.as_bytes())
}

/// Puts the status line of a code at the end, without its line end.
#[tactic(auto, unfolding(crate::specs::ReplyHead::status_line))]
fn add_status_line(out: &mut Vec<u8>, code: u16) -> Result<(), AllocError>
    requires { IsStatusCode code }
    ensures added { OnOk result (out.new.items ≡ out.old.items ++ form.status_line code) }
    ensures full { OnErr result (vec_capacity out.old < vec_len out.old
        + length (form.status_line code)) }
    ensures capacity { vec_capacity out.old ≤ vec_capacity out.new }
{
    add_text(out, "HTTP/1.1 ")?;
    add_number(out, code as u64)?;
    add_text(out, " ")?;
    add_text(out, phrase(code))
}

#[tactic(auto, unfolding(crate::specs::ReplyHead::content_type_line))]
fn add_content_type_line(out: &mut Vec<u8>, kind: &str) -> Result<(), AllocError>
    ensures added { OnOk result (out.new.items ≡ out.old.items ++ form.content_type_line kind.now) }
    ensures full { OnErr result (vec_capacity out.old
        < vec_len out.old + length (form.content_type_line kind.now)) }
    ensures capacity { vec_capacity out.old ≤ vec_capacity out.new }
{
    add_text(out, "\r\nContent-Type: ")?;
    add_text(out, kind)
}

#[tactic(auto, unfolding(crate::specs::ReplyHead::content_length_line))]
fn add_content_length_line(out: &mut Vec<u8>, bytes: u64) -> Result<(), AllocError>
    ensures added { OnOk result (out.new.items ≡ out.old.items ++ form.content_length_line bytes) }
    ensures full { OnErr result (vec_capacity out.old
        < vec_len out.old + length (form.content_length_line bytes)) }
    ensures capacity { vec_capacity out.old ≤ vec_capacity out.new }
{
    add_text(out, "\r\nContent-Length: ")?;
    add_number(out, bytes)?;
    add_text(out, "\r\n")
}

fn add_number(out: &mut Vec<u8>, number: u64) -> Result<(), AllocError>
    ensures added { OnOk result (out.new.items ≡ out.old.items ++ decimal number) }
    ensures full { OnErr result (vec_capacity out.old < vec_len out.old
        + length (decimal number)) }
    ensures capacity { vec_capacity out.old ≤ vec_capacity out.new }
{
    let mut buffer = Buffer::new();
    add_text(out, buffer.format(number))
}

fn phrase(code: u16) -> &'static str
    requires { IsStatusCode code }
    ensures { result.now ≡ unwrap_or (reason_phrase code) [] }
{
    match StatusCode::from_u16(code) {
        Ok(status) => status.canonical_reason().unwrap_or(""),
        Err(_) => unreachable!(),
    }
}
