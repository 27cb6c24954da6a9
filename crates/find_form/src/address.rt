//! How a place stands in an address.

ghost use Rattle.std.specs.Prelude.{◌≡◌, IfOk};
ghost use Rattle.find_form.specs.Address as spec;

use desk_forms::number_of_word;
use find_core::Place;
use std::alloc::{AllocError, Global};
use text_core::Text;

/// The key of what has no due moment, which is above all others.
const NO_DUE: u64 = 4_294_967_296;

/// A place as it stands in an address: its key and its number, with a slash between them. A key
/// that no moment and no number can be is told as `none`. `AllocError` where memory is refused.
pub fn place_text(alloc: Global, place: Place) -> Result<Text, AllocError>
    ensures { IfOk result (λ text. text ≡ spec.place_text place) }
{
    if place.key < NO_DUE {
        keyed_text(alloc, place.key, place.id)
    } else {
        unkeyed_text(alloc, place.id)
    }
}

fn keyed_text(alloc: Global, key: u64, id: u32) -> Result<Text, AllocError>
    ensures { IfOk result (λ text. text ≡ spec.keyed_text key id) }
{
    let text = format!(in alloc; "{key}/{id}")?;
    Ok(Text::from(text))
}

fn unkeyed_text(alloc: Global, id: u32) -> Result<Text, AllocError>
    ensures { IfOk result (λ text. text ≡ spec.unkeyed_text id) }
{
    let text = format!(in alloc; "none/{id}")?;
    Ok(Text::from(text))
}

/// The place of a key and a number in an address.
pub fn place_in(key: &str, id: &str) -> Option<Place>
    ensures { result ≡ spec.place_in key.now id.now }
{
    match (key_in(key), number_of_word(id)) {
        (Some(key), Some(id)) => Some(Place { key, id }),
        _ => None,
    }
}

fn key_in(word: &str) -> Option<u64>
    ensures { result ≡ spec.key_in word.now }
{
    if word == "none" {
        return Some(NO_DUE);
    }
    match number_of_word(word) {
        Some(number) => Some(u64::from(number)),
        None => None,
    }
}
