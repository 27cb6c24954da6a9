//! The fields of an address beside some that are changed.

ghost use Rattle.std.specs.Prelude.{◌≡◌, map, IfOk};
ghost use Rattle.std.specs.List.{list_any};
ghost use Rattle.std.specs.Option.{option_map};
ghost use Rattle.std.specs.Str.{bytes_eq};
ghost use Rattle.find_form.specs.Query as spec;

use browser_core::cut;
use std::alloc::{AllocError, Global};
use text_core::Text;

/// The fields of an address as they stand there, each behind an `&`: those that have a value and none
/// of these names. So they follow a field of an address. A name that is written otherwise than by its
/// letters is none of these. `AllocError` where memory is refused.
pub fn others_of(alloc: Global, query: &str, names: &[&str]) -> Result<Text, AllocError>
    ensures { IfOk result (λ text. text ≡ spec.others_of (map (λ n. n.now) names.now) query.now) }
{
    let mut text = String::new(alloc);
    for piece in query.split('&') {
        if is_other(piece, names) {
            text.push_str("&")?;
            text.push_str(piece)?;
        }
    }
    Ok(Text::from(text))
}

/// Whether a piece of an address has a value, and none of these names.
fn is_other(piece: &str, names: &[&str]) -> bool
    ensures { result ≡ spec.is_other (map (λ n. n.now) names.now) piece.now }
{
    let (name, value) = cut(piece.as_bytes(), b'=');
    has_bytes(value) && !is_among(name, names)
}

/// Whether there is a value of a byte or more.
fn has_bytes(value: Option<&[u8]>) -> bool
    ensures { result ≡ spec.has_bytes (option_map (λ v. v.now) value.entry) }
{
    match value {
        Some(value) => !value.is_empty(),
        None => false,
    }
}

fn is_among(name: &[u8], names: &[&str]) -> bool
    ensures { result ≡ list_any (bytes_eq name.now) (map (λ n. n.now) names.now) }
{
    for known in names {
        if name == known.as_bytes() {
            return true;
        }
    }
    false
}
