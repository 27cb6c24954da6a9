//! Tokens that others know or may guess, in words for people.

ghost use Rattle.std.specs.Prelude.{◌≡◌, ◌++◌, IfOk, OnOk, Some, string_bytes};
ghost use Rattle.std.specs.List.{flat_map};
ghost use Rattle.check_core.specs.Weak as spec;

use settings_parts::people::Token;
use std::alloc::{AllocError, Global};
use std::fmt;

/// How the tokens of the settings begin that everybody copies.
const CHANGE_ME: &str = "change-me";

/// The token of the page on messages.
const EXAMPLE: &str = "bob-token-0000000";

/// As many characters as 128 bits take where each is one of 64.
const ENOUGH_CHARACTERS: usize = 22;

/// Why a token is weak.
#[derive(Clone, Copy)]
pub enum Weakness {
    /// It begins with `change-me`, as those of the example settings do.
    ChangeMe,
    /// It stands in an example.
    Example,
    /// It has fewer than 22 characters.
    Short,
}

impl fmt::Display for Weakness {
    ghost output = { λ why. Some (spec.why_text why) };

    fn fmt<W: fmt::Write>(&self, f: &mut fmt::Formatter<W>) -> fmt::Result {
        f.write_str(match self {
            Weakness::ChangeMe => "begins with `change-me`",
            Weakness::Example => "stands in an example",
            Weakness::Short => "has fewer than 22 characters",
        })
    }
}

/// Why a token is weak, if it is: the first of the reasons.
pub fn weakness_of(token: &str) -> Option<Weakness>
    ensures { result ≡ spec.weakness_of token.now }
{
    if token.as_bytes().starts_with(CHANGE_ME.as_bytes()) {
        Some(Weakness::ChangeMe)
    } else if token == EXAMPLE {
        Some(Weakness::Example)
    } else if token.len() < ENOUGH_CHARACTERS {
        Some(Weakness::Short)
    } else {
        None
    }
}

/// A line for each weak token, in their order: whose it is, and why it is weak. No token stands there.
pub fn warnings(alloc: Global, tokens: &[Token]) -> Result<String, AllocError>
    ensures { IfOk result (λ told. string_bytes told ≡ spec.warnings tokens.now) }
{
    let mut told = String::new(alloc);
    put_warnings(&mut told, tokens)?;
    Ok(told)
}

fn put_warnings(out: &mut String, tokens: &[Token]) -> Result<(), AllocError>
    ensures { OnOk result (string_bytes out.new
        ≡ string_bytes out.old ++ flat_map spec.warning_of tokens.now) }
{
    for token in tokens {
        put_warning(out, token)?;
    }
    Ok(())
}

/// Puts the line that warns of a token, if it is weak.
fn put_warning(out: &mut String, token: &Token) -> Result<(), AllocError>
    ensures { OnOk result (string_bytes out.new
        ≡ string_bytes out.old ++ spec.warning_of token.now) }
{
    match weakness_of(token.token.as_str()) {
        Some(why) => put_line(out, token.person.as_str(), why),
        None => Ok(()),
    }
}

fn put_line(out: &mut String, person: &str, why: Weakness) -> Result<(), AllocError>
    ensures { OnOk result (string_bytes out.new
        ≡ string_bytes out.old ++ spec.warning person.now why) }
{
    write!(out, "warning: the token of `{person}` {why}\n")
}
