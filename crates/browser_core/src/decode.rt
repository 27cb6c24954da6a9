//! The text for which bytes of a form stand.
ghost use Rattle.std.specs.Prelude.{◌≡◌, ◌≢◌, ◌<◌, [], length, true, IfOk};
ghost use Rattle.std.specs.Option.{option_map};
ghost use Rattle.browser_core.specs.Form as form;

use crate::texts::text_in;
use std::alloc::{AllocError, Global};
use text_core::Text;

/// What a hexadecimal digit is worth.
fn digit_of(byte: u8) -> Option<u8>
    ensures { result ≡ form.digit_of byte }
{
    match byte {
        b'0'..=b'9' => Some(byte - b'0'),
        b'a'..=b'f' => Some(byte - b'a' + 10),
        b'A'..=b'F' => Some(byte - b'A' + 10),
        _ => None,
    }
}

/// The byte for which two digits stand.
fn byte_of(high: u8, low: u8) -> Option<u8>
    ensures { result ≡ form.byte_of (form.digit_of high) (form.digit_of low) }
{
    match (digit_of(high), digit_of(low)) {
        (Some(high), Some(low)) => Some(high * 16 + low),
        _ => None,
    }
}

/// The byte for which a byte alone stands.
fn plain(byte: u8) -> Option<u8>
    ensures { result ≡ form.plain byte }
{
    match byte {
        b'%' => None,
        b'+' => Some(b' '),
        _ => Some(byte),
    }
}

/// Whether a `%` has two bytes behind it.
fn is_escape(bytes: &[u8]) -> bool
    ensures { result ≡ form.is_escape bytes.now }
{
    match bytes {
        [b'%', _, _, ..] => true,
        _ => false,
    }
}

/// The byte for which the front of bytes stands, if it does for one, and what follows it.
#[tactic(auto, using(crate::proofs::Decodes::alone))]
fn first_of(bytes: &[u8]) -> (Option<u8>, &[u8])
    requires { bytes.now ≢ [] }
    ensures first { form.decoded bytes.now ≡ form.onto result.0 (form.decoded result.1.now) }
    ensures less { length result.1.now < length bytes.now }
{
    if is_escape(bytes) {
        escaped(bytes)
    } else {
        (plain(bytes[0]), &bytes[1..])
    }
}

/// The same of an escape.
fn escaped(bytes: &[u8]) -> (Option<u8>, &[u8])
    requires { form.is_escape bytes.now ≡ true }
    ensures first { form.decoded bytes.now ≡ form.onto result.0 (form.decoded result.1.now) }
    ensures less { length result.1.now < length bytes.now }
{
    match bytes {
        [_, high, low, rest @ ..] => (byte_of(*high, *low), rest),
        _ => unreachable!(),
    }
}

/// The bytes for which bytes stand, if a `%` has two digits behind it everywhere.
#[tactic(auto, using(crate::proofs::Decodes::stops))]
fn decoded(alloc: Global, bytes: &[u8]) -> Result<Option<Vec<u8>>, AllocError>
    ensures { IfOk result (λ out. option_map (λ o. o.items) out ≡ form.decoded bytes.now) }
{
    let mut out = Vec::new(alloc);
    let mut left = bytes;
    while !left.is_empty() {
        let (byte, rest) = first_of(left);
        match byte {
            Some(byte) => out.push(byte)?,
            None => return Ok(None),
        }
        left = rest;
    }
    Ok(Some(out))
}

/// The bytes with a line feed in place of each CR LF.
#[tactic(auto, using(crate::proofs::Decodes::feed_stays, crate::proofs::Decodes::feed_goes))]
fn with_feeds(alloc: Global, bytes: &[u8]) -> Result<Vec<u8>, AllocError>
    ensures { IfOk result (λ out. out.items ≡ form.with_feeds bytes.now) }
{
    let mut out = Vec::new(alloc);
    for place in 0..bytes.len() {
        if !(bytes[place] == b'\r' && begins_with_feed(&bytes[place + 1..])) {
            out.push(bytes[place])?;
        }
    }
    Ok(out)
}

fn begins_with_feed(bytes: &[u8]) -> bool
    ensures { result ≡ form.begins_with_feed bytes.now }
{
    match bytes {
        [b'\n', ..] => true,
        _ => false,
    }
}

/// The text for which bytes of a form stand, if they do for one.
pub(crate) fn text_of(alloc: Global, bytes: &[u8]) -> Result<Option<Text>, AllocError>
    ensures { IfOk result (λ text. text ≡ form.text_of bytes.now) }
{
    let Some(bytes) = decoded(alloc, bytes)? else {
        return Ok(None);
    };
    let bytes = with_feeds(alloc, bytes.as_slice())?;
    match text_in(bytes.as_slice()) {
        Some(text) => Ok(Some(Text::new(alloc, text)?)),
        None => Ok(None),
    }
}
