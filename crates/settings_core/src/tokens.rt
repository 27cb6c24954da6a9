//! Tokens.

ghost use Rattle.std.specs.Prelude.{◌≡◌, find, not};
ghost use Rattle.std.specs.List.{list_all};
ghost use Rattle.std.specs.Option.{option_copied};
ghost use Rattle.settings_core.specs.Tokens as spec;

use settings_parts::people::Token;
use text_core::{is_digit, is_letter};

/// The least bytes of a token.
const LEAST_BYTES: usize = 16;

/// The most bytes of a token.
const MOST_BYTES: usize = 64;

/// Whether each token is 16 to 64 letters, digits, `-` and `_`.
pub fn are_tokens(tokens: &[Token]) -> bool
    ensures { result ≡ list_all (λ t. spec.is_token t.token) tokens.now }
{
    bad_token(tokens).is_none()
}

/// The first token that isn't 16 to 64 letters, digits, `-` and `_`.
pub fn bad_token(tokens: &[Token]) -> Option<&Token>
    ensures { option_copied result ≡ find (λ t. not (spec.is_token t.token)) tokens.now }
{
    tokens.iter().find(|t| !is_token(t.token.as_str()))
}

/// Whether the text is 16 to 64 letters, digits, `-` and `_`.
fn is_token(text: &str) -> bool
    ensures { result ≡ spec.is_token text.now }
{
    LEAST_BYTES <= text.len() && text.len() <= MOST_BYTES && has_token_bytes(text.as_bytes())
}

fn has_token_bytes(bytes: &[u8]) -> bool
    ensures { result ≡ list_all spec.is_token_byte bytes.now }
{
    bytes.iter().all(|b| is_token_byte(*b))
}

fn is_token_byte(byte: u8) -> bool
    ensures { result ≡ spec.is_token_byte byte }
{
    is_letter(byte) || is_digit(byte) || byte == b'-' || byte == b'_'
}
