//! A person and the end of a session, under the MAC of a token.

ghost use Rattle.std.specs.Prelude.{◌≡◌, ◌++◌, codes, drop, take, IfOk};
ghost use Rattle.std.specs.Option.{option_and_then};
ghost use Rattle.hex.specs.Hex.{encode_lower};
ghost use Rattle.browser_core.specs.Cuts.{before};
ghost use Rattle.browser_core.specs.Texts as texts;
ghost use Rattle.desk_forms.specs.Number.{number_of};
ghost use Rattle.session_core.specs.Hmac.{hmac};
ghost use Rattle.session_core.specs.Seal as spec;

use crate::compare::are_same;
use crate::hmac::hmac_sha256;
use browser_core::{cut, text_in};
use desk_forms::number_of_word;
use settings_parts::people::Token;
use std::alloc::{AllocError, Global};
use text_core::Text;

/// `PERSON.EXPIRES.MAC` of a token.
pub(crate) fn sealed(alloc: Global, token: &Token, ends: u32) -> Result<Text, AllocError>
    ensures { IfOk result (λ text. text ≡ spec.sealed token.now ends) }
{
    let named = named(alloc, token.person.as_str(), ends)?;
    let mac = mac_of(alloc, token, named.as_str())?;
    joined(alloc, named.as_str(), mac.as_str())
}

/// `PERSON.EXPIRES`.
fn named(alloc: Global, person: &str, ends: u32) -> Result<Text, AllocError>
    ensures { IfOk result (λ text. text ≡ spec.named person.now ends) }
{
    let text = format!(in alloc; "{person}.{ends}")?;
    Ok(Text::from(text))
}

/// A text and a MAC behind it.
fn joined(alloc: Global, named: &str, mac: &str) -> Result<Text, AllocError>
    ensures { IfOk result (λ text. text ≡ named.now ++ (codes "." ++ mac.now)) }
{
    let text = format!(in alloc; "{named}.{mac}")?;
    Ok(Text::from(text))
}

/// The MAC of a token over `PERSON.EXPIRES`.
fn mac_of(alloc: Global, token: &Token, named: &str) -> Result<Text, AllocError>
    ensures { IfOk result (λ mac. mac ≡ encode_lower
        (hmac token.now.token (codes "desk session\n" ++ named.now))) }
{
    let message = format!(in alloc; "desk session\n{named}")?;
    let mac = hmac_sha256(token.token.as_str().as_bytes(), message.as_bytes());
    let digits = hex::encode(alloc, mac)?;
    Ok(Text::from(digits))
}

/// The end of the session whose text the token seals, if it does.
pub(crate) fn opened(alloc: Global, token: &Token, text: &str) -> Result<Option<u32>, AllocError>
    ensures { IfOk result (λ ends. ends ≡ spec.opened token.now text.now) }
{
    let Some(ends) = ends_in(token.person.as_str(), text.as_bytes()) else {
        return Ok(None);
    };
    let expected = sealed(alloc, token, ends)?;
    if are_same(expected.as_str().as_bytes(), text.as_bytes()) {
        Ok(Some(ends))
    } else {
        Ok(None)
    }
}

/// The number behind the person, where the text begins so.
fn ends_in(person: &str, text: &[u8]) -> Option<u32>
    ensures { result ≡ spec.ends_in person.now text.now }
{
    let (front, back) = at(text, person.len());
    if front == person.as_bytes() {
        number_behind(back)
    } else {
        None
    }
}

/// What stands up to a place, and from there on.
fn at(bytes: &[u8], place: usize) -> (&[u8], &[u8])
    ensures front { result.0.now ≡ take place bytes.now }
    ensures back { result.1.now ≡ drop place bytes.now }
{
    if place <= bytes.len() {
        bytes.split_at(place)
    } else {
        (bytes, &[])
    }
}

/// The number behind a full stop, up to the next one.
fn number_behind(bytes: &[u8]) -> Option<u32>
    ensures { result ≡ spec.number_behind bytes.now }
{
    match bytes {
        [] => None,
        [first, rest @ ..] => {
            if *first == b'.' {
                number_before_stop(rest)
            } else {
                None
            }
        }
    }
}

fn number_before_stop(bytes: &[u8]) -> Option<u32>
    ensures { result ≡ option_and_then number_of (texts.text_in (before 46 bytes.now)) }
{
    let (digits, _) = cut(bytes, b'.');
    match text_in(digits) {
        Some(word) => number_of_word(word),
        None => None,
    }
}
