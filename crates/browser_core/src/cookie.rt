//! The cookie of a message that says who is signed in.
ghost use Rattle.std.specs.Prelude.{◌≡◌, ◌∷◌, [], map};
ghost use Rattle.std.specs.List.{flat_map};
ghost use Rattle.std.specs.Option.{option_map};
ghost use Rattle.browser_core.specs.Cookie as form;
ghost use Rattle.browser_core.specs.Known as known;

use crate::cuts::{cut, name_and_value};
use crate::known::Known;
use crate::texts::text_in;
use crate::trim::trimmed;

/// The name of that cookie: `__Host-desk` where browsers come by HTTPS, and else `desk`. A browser
/// takes one whose name begins with `__Host-` only by HTTPS, and only from the very host to which it
/// sends it.
pub fn cookie_name(https: bool) -> &'static str
    ensures { result.now ≡ form.cookie_name https }
{
    if https { "__Host-desk" } else { "desk" }
}

/// The text of the cookie of this name in the values of all `Cookie` lines. Each is cut at `;`, spaces
/// and tabs round a piece are dropped, and the piece is cut at its first `=`. There is a text where
/// exactly one piece of all lines has the name, and its value is text.
pub fn cookie_named<'c>(name: &str, lines: &[&'c [u8]]) -> Option<&'c str>
    ensures { option_map (λ t. t.now) result
        ≡ form.cookie_named name.now (map (λ l. l.now) lines.now) }
{
    match only_value(name, lines) {
        Some(value) => text_in(value),
        None => None,
    }
}

/// The value of the one cookie of the name.
#[tactic(auto, using(crate::proofs::Cookies::the_only))]
fn only_value<'c>(name: &str, lines: &[&'c [u8]]) -> Option<&'c [u8]>
    ensures { option_map (λ v. v.now) result ≡ form.only
        (flat_map (λ line. form.values_of name.now (form.pieces line)) (map (λ l. l.now) lines.now)) }
{
    known_in(name, lines).the_one()
}

#[tactic(auto, using(crate::proofs::Cookies::in_turn))]
fn known_in<'c>(name: &str, lines: &[&'c [u8]]) -> Known<'c>
    ensures { known.known_of result ≡ known.with_all known.Nothing
        (flat_map (λ line. form.values_of name.now (form.pieces line)) (map (λ l. l.now) lines.now)) }
{
    let mut known = Known::Nothing;
    for line in lines {
        known = with_line(name, known, line);
    }
    known
}

/// With the pieces of a line.
fn with_line<'c>(name: &str, before: Known<'c>, line: &'c [u8]) -> Known<'c>
    ensures { known.known_of result
        ≡ known.with_all (known.known_of before.entry) (form.values_of name.now
        (form.pieces line.entry.now)) }
{
    let mut known = before;
    let mut left = Some(line);
    while let Some(rest) = left {
        let (piece, more) = cut(rest, b';');
        known = with_piece(name, known, trimmed(piece));
        left = more;
    }
    known
}

/// With a piece, if it has the name.
fn with_piece<'c>(name: &str, before: Known<'c>, piece: &'c [u8]) -> Known<'c>
    ensures { known.known_of result
        ≡ known.with_all (known.known_of before.entry) (form.values_of name.now
        (piece.entry.now ∷ [])) }
{
    let (own, value) = name_and_value(piece);
    if own == name.as_bytes() {
        before.with(value)
    } else {
        before
    }
}
