//! Bytes that are a text.
ghost use Rattle.std.specs.Prelude.{◌≡◌};
ghost use Rattle.std.specs.Option.{option_map};
ghost use Rattle.browser_core.specs.Texts as texts;

use std::str;

/// The text that the bytes are, if they are one.
pub fn text_in(bytes: &[u8]) -> Option<&str>
    ensures { option_map (λ t. t.now) result ≡ texts.text_in bytes.now }
{
    match str::from_utf8(bytes) {
        Ok(text) => Some(text),
        Err(_) => None,
    }
}
