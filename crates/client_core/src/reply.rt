//! The reply of a served desk.
ghost use Rattle.std.specs.Prelude.{◌≡◌, ◌==◌, true, drop, is_some, Some, IfOk, IfSome};
ghost use Rattle.message_core.specs.Reply.{is_reply_code};
ghost use Rattle.std.specs.Option.{option_map};
ghost use Rattle.route_core.specs.Cuts as cuts;
ghost use Rattle.client_core.specs.Reply as spec;

use desk_forms::number_of_word;
use message_core::{Allow, Reply, answer_bytes};
use std::alloc::{AllocError, Global};
use std::str;
use text_core::Sequence;

/// The bytes between the end of the first line of a reply and the digits of its length.
const TO_LENGTH: usize = 59;

/// What a reply tells.
#[derive(Clone, Copy)]
pub struct Answered<'b> {
    /// The code: 200, 201, 400, 403, 404, 405, 409 or 503.
    pub code: u16,
    /// The text.
    pub text: &'b [u8],
}

/// What the reply of a desk tells, if the bytes are one: byte for byte what `answer_bytes` makes of
/// that code and that text.
pub fn answer_in(alloc: Global, bytes: &[u8]) -> Result<Option<Answered<'_>>, AllocError>
    ensures { IfOk result (λ found. option_map (λ told. (told.code, told.text.now)) found
        ≡ spec.answer_in bytes.now) }
{
    let Some(code) = code_in(bytes) else {
        return Ok(None);
    };
    match text_in(bytes) {
        Some(text) => answer_with(alloc, bytes, code, text),
        None => Ok(None),
    }
}

/// The code and the text, where the bytes are their reply.
fn answer_with<'b>(
    alloc: Global,
    bytes: &'b [u8],
    code: u16,
    text: &'b [u8],
) -> Result<Option<Answered<'b>>, AllocError>
    requires { is_reply_code code ≡ true }
    ensures { IfOk result (λ found. option_map (λ told. (told.code, told.text.now)) found
        ≡ spec.answer_by bytes.entry.now (Some code) (Some text.entry.now)) }
{
    if is_one_of(alloc, bytes, code, text)? {
        Ok(Some(Answered { code, text }))
    } else {
        Ok(None)
    }
}

/// The code in the first line.
fn code_in(bytes: &[u8]) -> Option<u16>
    ensures known { IfSome result (λ code. is_reply_code code ≡ true) }
    ensures code { result ≡ spec.code_in bytes.now }
{
    if bytes.len() < 12 {
        return None;
    }
    code_named(&bytes[9..12])
}

fn code_named(digits: &[u8]) -> Option<u16>
    ensures known { IfSome result (λ code. is_reply_code code ≡ true) }
    ensures code { result ≡ spec.code_named digits.now }
{
    if digits == b"200".as_slice() {
        Some(200)
    } else if digits == b"201".as_slice() {
        Some(201)
    } else if digits == b"400".as_slice() {
        Some(400)
    } else if digits == b"403".as_slice() {
        Some(403)
    } else if digits == b"404".as_slice() {
        Some(404)
    } else if digits == b"405".as_slice() {
        Some(405)
    } else if digits == b"409".as_slice() {
        Some(409)
    } else if digits == b"503".as_slice() {
        Some(503)
    } else {
        None
    }
}

/// As many bytes from the end as the head states.
fn text_in(bytes: &[u8]) -> Option<&[u8]>
    ensures { option_map (λ t. t.now) result ≡ spec.text_in bytes.now }
{
    let stated = number_in(before(behind_type(bytes)))?;
    let stated = stated as usize;
    if stated <= bytes.len() {
        Some(&bytes[bytes.len() - stated..])
    } else {
        None
    }
}

/// What stands behind the type of a text, where that is stated.
#[tactic(auto, using(crate::proofs::Lists::nothing_behind))]
fn behind_type(bytes: &[u8]) -> &[u8]
    ensures { result.now ≡ drop 59 (spec.from_return bytes.now) }
{
    let rest = from_return(bytes);
    if rest.len() < TO_LENGTH {
        &[]
    } else {
        &rest[TO_LENGTH..]
    }
}

/// What stands before the first carriage return.
#[tactic(auto, using(crate::proofs::Returns::ends, crate::proofs::Returns::goes_on))]
fn before(bytes: &[u8]) -> &[u8]
    ensures { result.now ≡ spec.before bytes.now }
{
    for place in 0..bytes.len() {
        if bytes[place] == b'\r' {
            return &bytes[..place];
        }
    }
    bytes
}

/// What begins with the first carriage return.
#[tactic(auto, using(crate::proofs::Returns::begins, crate::proofs::Returns::not_yet))]
fn from_return(bytes: &[u8]) -> &[u8]
    ensures { result.now ≡ spec.from_return bytes.now }
{
    for place in 0..bytes.len() {
        if bytes[place] == b'\r' {
            return &bytes[place..];
        }
    }
    &[]
}

/// The number that bytes are.
fn number_in(digits: &[u8]) -> Option<u32>
    ensures { result ≡ spec.number_in digits.now }
{
    match utf8_in(digits) {
        Some(text) => number_of_word(text),
        None => None,
    }
}

/// The bytes as a text, if they are one.
fn utf8_in(bytes: &[u8]) -> Option<&str>
    ensures { option_map (λ t. t.now) result ≡ cuts.text_in bytes.now }
{
    match str::from_utf8(bytes) {
        Ok(text) => Some(text),
        Err(_) => None,
    }
}

/// Whether the bytes are those of a reply with this code and this text.
fn is_one_of(alloc: Global, bytes: &[u8], code: u16, text: &[u8]) -> Result<bool, AllocError>
    requires { is_reply_code code ≡ true }
    ensures { IfOk result (λ is. is ≡ spec.is_one_of bytes.now code text.now) }
{
    if code != 405 {
        return is_reply(alloc, bytes, code, None, text);
    }
    if is_reply(alloc, bytes, code, Some(Allow::Get), text)? {
        return Ok(true);
    }
    if is_reply(alloc, bytes, code, Some(Allow::Post), text)? {
        return Ok(true);
    }
    is_reply(alloc, bytes, code, Some(Allow::GetPost), text)
}

/// The same with these methods.
fn is_reply(
    alloc: Global,
    bytes: &[u8],
    code: u16,
    allow: Option<Allow>,
    text: &[u8],
) -> Result<bool, AllocError>
    requires code { is_reply_code code ≡ true }
    requires allow { is_some allow ≡ (code == 405) }
    ensures { IfOk result (λ is. is ≡ spec.is_reply bytes.now code allow text.now) }
{
    let mut body = Vec::new(alloc);
    body.extend_from_slice(text)?;
    let reply = Reply {
        status: code,
        allow,
        body: Sequence::from(body),
        head_only: false,
    };
    let made = answer_bytes(alloc, &reply)?;
    Ok(made.as_slice() == bytes)
}
