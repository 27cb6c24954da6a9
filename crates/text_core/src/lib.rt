//! Texts, lists, and the tests for a name, a right's name, a subject and a text.
//!
//! Every crate of the desk stands on this one, so that a text is the list of its bytes in each
//! contract. `Text` and `Sequence` are made of a `String` and a `Vec`, and give them back without
//! memory. A `RightName` is a text that is a right's name. `is_name`, `is_right_name`, `is_subject` and `is_text` count characters where the rule
//! does. `is_among`, `repeats_text` and `shares_text` ask of texts in a list, twice in a list, and
//! in two, one after the other; `Lookup` and `IndexedTexts` ask a set.
#![tactic(auto)]

mod form;
mod lookup;
mod right_name;
mod sequence;
mod text;
mod texts;

pub use form::{is_digit, is_letter, is_name, is_right_name, is_subject, is_text};
pub use lookup::{IndexedTexts, Lookup, distinct};
pub use right_name::RightName;
pub use sequence::Sequence;
pub use text::Text;
pub use texts::{Texts, is_among, repeats_text, shares_text};
