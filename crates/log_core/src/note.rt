//! What the log notes of a message and its reply.
ghost use Rattle.std.specs.Prelude.{◌≡◌, ◌++◌, ◌≤◌, IfOk, IsTrue, codes, length, take};
ghost use Rattle.std.specs.Str.{bytes_eq};
ghost use Rattle.log_core.specs.Log as form;

use crate::word::put_word;
use browser_core::cut;
use std::alloc::{AllocError, Global};

/// What of a message the log may tell. A part that it hasn't is empty.
#[derive(Clone, Copy)]
pub struct Note<'b> {
    /// What the proxy tells of where the message comes from.
    pub forwarded: &'b [u8],
    /// Whose token it has.
    pub person: &'b [u8],
    pub method: &'b [u8],
    /// The path, with what follows it.
    pub target: &'b [u8],
}

/// The words of the log on a message and its reply: the address behind the last comma of what the
/// proxy told, the person, the method, the path without its query, the code, and the number of a
/// refusal. A dash stands for a word that there isn't.
#[tactic(auto, unfolding(crate::specs::Log::note_text))]
pub fn note_of(alloc: Global, note: Note<'_>, reply: &[u8]) -> Result<Vec<u8>, AllocError>
    ensures { IfOk result (λ out. out.items ≡ form.note_text note.entry.forwarded.now
        note.entry.person.now note.entry.method.now note.entry.target.now reply.now) }
{
    let mut out = Vec::new(alloc);
    let address = address_of(alloc, note.forwarded)?;
    put_word(&mut out, 45, address.as_slice())?;
    put_next(&mut out, 64, note.person)?;
    put_next(&mut out, 16, note.method)?;
    put_next(&mut out, 200, cut(note.target, b'?').0)?;
    put_next(&mut out, 3, code_of(reply))?;
    put_next(&mut out, 2, number_of(reply))?;
    Ok(out)
}

/// One word more, after a space.
fn put_next(out: &mut Vec<u8>, most: usize, bytes: &[u8]) -> Result<(), AllocError>
    ensures { IfOk result (λ _. out.new.items
        ≡ out.old.items ++ (codes " " ++ form.word most bytes.now)) }
{
    out.extend_from_slice(b" ")?;
    put_word(out, most, bytes)
}

/// What stands behind the last comma, without its spaces: the address that a proxy adds at the end of
/// its line `X-Forwarded-For`.
pub fn address_of(alloc: Global, forwarded: &[u8]) -> Result<Vec<u8>, AllocError>
    ensures { IfOk result (λ out. out.items ≡ form.address_of forwarded.now) }
{
    let mut out = Vec::new(alloc);
    for byte in forwarded {
        match *byte {
            b',' => out.clear(),
            b' ' => {}
            byte => out.push(byte)?,
        }
    }
    Ok(out)
}

/// The three digits of the code.
fn code_of(reply: &[u8]) -> &[u8]
    ensures { result.now ≡ form.code_of reply.now }
{
    let rest = &reply[9usize.min(reply.len())..];
    &rest[..3usize.min(rest.len())]
}

/// The number of a refusal, where the body is the text of one.
fn number_of(reply: &[u8]) -> &[u8]
    ensures { result.now ≡ form.number_of reply.now }
{
    let body = body_of(reply);
    let front = b"refused ";
    if body.len() >= 8 && &body[..8] == front.as_slice() {
        cut(&body[8..], b' ').0
    } else {
        &[]
    }
}

/// What follows the first empty line.
fn body_of(reply: &[u8]) -> &[u8]
    ensures { result.now ≡ form.body_of reply.now }
{
    for start in 0..reply.len() {
        let rest = &reply[start..];
        if begins_with_two_ends(rest) {
            return &rest[4..];
        }
    }
    &[]
}

/// Whether they begin with two line ends.
fn begins_with_two_ends(bytes: &[u8]) -> bool
    ensures is { result ≡ bytes_eq (take 4 bytes.now) (codes "\r\n\r\n") }
    ensures long { IsTrue result → 4 ≤ length bytes.now }
{
    bytes.len() >= 4 && &bytes[..4] == b"\r\n\r\n".as_slice()
}
