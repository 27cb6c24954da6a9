//! A minute as a text.

ghost use Rattle.std.specs.Prelude.{◌≡◌, ℕ};
ghost use Rattle.hours_core.specs.Date.{text_of_minute};

use std::str;

/// The bytes of a minute, which are a text.
pub(crate) fn as_text(bytes: &[u8; 16]) -> &str
    requires minute { (minute : ℕ) × (bytes.now ≡ text_of_minute minute) }
    ensures { result.now ≡ bytes.now }
{
    match str::from_utf8(bytes) {
        Ok(text) => text,
        Err(_) => unreachable!(),
    }
}
