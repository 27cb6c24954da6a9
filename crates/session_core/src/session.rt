//! Cookies that say who is signed in, and until when.

ghost use Rattle.std.specs.Prelude.{◌≡◌, ◌≤◌, IfOk};
ghost use Rattle.std.specs.Option.{option_map};
ghost use Rattle.session_core.specs.Sessions as spec;

use crate::seal::{opened, sealed};
use hours_core::Minute;
use settings_core::Settings;
use settings_parts::people::Token;
use std::alloc::{AllocError, Global};
use text_core::Text;

/// How long a session lasts.
#[derive(Clone, Copy)]
pub enum Lasts {
    /// 12 hours.
    Day,
    /// 30 days.
    Month,
}

impl Lasts {
    /// The minutes.
    fn minutes(self) -> u32
        ensures is { result ≡ spec.minutes_of self }
        ensures few { result ≤ 43200 }
    {
        match self {
            Lasts::Day => 720,
            Lasts::Month => 43_200,
        }
    }
}

/// The cookie of one who signs in at a moment, if what was typed is a token of the settings: it is
/// sealed by that very token.
pub fn signed_in(
    alloc: Global,
    settings: &Settings,
    typed: &str,
    moment: Minute,
    lasts: Lasts,
) -> Result<Option<Text>, AllocError>
    ensures { IfOk result (λ cookie.
        cookie ≡ spec.signed_in settings.now typed.now moment lasts) }
{
    match token_typed(settings, typed) {
        Some(token) => Ok(Some(made(alloc, token, moment, lasts)?)),
        None => Ok(None),
    }
}

/// The token of the settings that was typed, with its person.
fn token_typed<'s>(settings: &'s Settings, typed: &str) -> Option<&'s Token>
    ensures { option_map (λ t. t.now) result ≡ spec.token_typed settings.now typed.now }
{
    settings.tokens().iter().find(|t| t.token.as_str() == typed)
}

/// The cookie of a token, from a moment on.
fn made(alloc: Global, token: &Token, moment: Minute, lasts: Lasts) -> Result<Text, AllocError>
    ensures { IfOk result (λ cookie. cookie ≡ spec.made token.now moment lasts) }
{
    sealed(alloc, token, moment.get() + lasts.minutes())
}

/// The person for whom a cookie stands at a minute since 1970-01-01 00:00 UTC: the cookie is
/// `PERSON.EXPIRES.MAC` by a token of this person in the settings, and `now < EXPIRES` and
/// `EXPIRES <= now + 43200`.
pub fn caller_of(
    alloc: Global,
    settings: &Settings,
    cookie: &str,
    now: u32,
) -> Result<Option<Text>, AllocError>
    ensures { IfOk result (λ caller. caller ≡ spec.caller_of settings.now cookie.now now) }
{
    caller_in(alloc, settings.tokens(), cookie, now)
}

fn caller_in(
    alloc: Global,
    tokens: &[Token],
    cookie: &str,
    now: u32,
) -> Result<Option<Text>, AllocError>
    ensures { IfOk result (λ caller. caller ≡ spec.caller_in tokens.now cookie.now now) }
{
    for token in tokens {
        if seals(alloc, token, cookie, now)? {
            return Ok(Some(Text::new(alloc, token.person.as_str())?));
        }
    }
    Ok(None)
}

/// Whether a token seals the cookie, and its session is open.
fn seals(alloc: Global, token: &Token, cookie: &str, now: u32) -> Result<bool, AllocError>
    ensures { IfOk result (λ does. does ≡ spec.seals cookie.now now token.now) }
{
    match opened(alloc, token, cookie)? {
        Some(ends) => Ok(is_open(now, ends)),
        None => Ok(false),
    }
}

/// Whether a session that ends then is open now: it hasn't ended, and ends no later than one that
/// is made now.
fn is_open(now: u32, ends: u32) -> bool
    ensures { result ≡ spec.is_open now ends }
{
    now < ends && ends as u64 <= now as u64 + 43_200
}
