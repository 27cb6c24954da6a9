//! The line `Date` of a reply.
ghost use Rattle.std.specs.Prelude.{◌≡◌, true, IfOk};
ghost use Rattle.httpdate.specs.Date.{date_text};
ghost use Rattle.httpdate.specs.declared.date.HttpDate.{HttpDate as Date};
ghost use Rattle.http_rules.specs.Date as form;

use browser_core::cut;
use httpdate::HttpDate;
use std::alloc::{AllocError, Global};

/// What the line begins with.
const START: &[u8] = b"Date: ";

/// How many bytes the line has.
const LENGTH: usize = 37;

/// The reply with this date behind its first line. `AllocError` where there is no memory for it.
pub fn dated_reply(alloc: Global, reply: &[u8], date: HttpDate) -> Result<Vec<u8>, AllocError>
    ensures { IfOk result (λ out. out.items ≡ form.dated (date_text date) reply.now) }
{
    let (first, rest) = cut(reply, b'\n');
    let mut out = Vec::with_capacity(alloc, reply.len().saturating_add(LENGTH))?;
    out.extend_from_slice(first)?;
    if let Some(rest) = rest {
        out.extend_from_slice(b"\nDate: ")?;
        out.extend_from_slice(&date.to_bytes())?;
        out.extend_from_slice(b"\r\n")?;
        out.extend_from_slice(rest)?;
    }
    Ok(out)
}

/// The reply without the line of its date, if one stands behind its first line. `AllocError` where
/// there is no memory for it.
pub fn undated_reply(alloc: Global, reply: &[u8]) -> Result<Vec<u8>, AllocError>
    ensures { IfOk result (λ out. out.items ≡ form.undated reply.now) }
{
    let (first, rest) = cut(reply, b'\n');
    let mut out = Vec::with_capacity(alloc, reply.len())?;
    out.extend_from_slice(first)?;
    if let Some(rest) = rest {
        out.extend_from_slice(b"\n")?;
        out.extend_from_slice(behind_line(rest))?;
    }
    Ok(out)
}

/// What stands behind the line, or all where the bytes don't begin with it.
fn behind_line(bytes: &[u8]) -> &[u8]
    ensures { result.now ≡ form.behind_line bytes.now }
{
    if begins_with_line(bytes) {
        &bytes[LENGTH..]
    } else {
        bytes
    }
}

/// Whether the bytes begin with the line of a date.
fn begins_with_line(bytes: &[u8]) -> bool
    ensures { result ≡ form.begins_with_line bytes.now }
{
    bytes.len() >= LENGTH
        && &bytes[..START.len()] == START
        && is_date(&bytes[START.len()..LENGTH - 2])
        && &bytes[LENGTH - 2..LENGTH] == b"\r\n".as_slice()
}

/// Whether a text is that of a date; one that HTTP's dates are written as is.
pub(crate) fn is_date(text: &[u8]) -> bool
    ensures is { result ≡ form.is_date text.now }
    ensures of_all { (date : Date) → text.now ≡ date_text date → result ≡ true }
{
    HttpDate::parse_ascii(text).is_ok()
}
