//! What the header lines of a message say of who asks.

ghost use Rattle.std.specs.Prelude.{◌≡◌, [], IfOk};
ghost use Rattle.std.specs.Option.{option_map};
ghost use Rattle.httparse.specs.Grammar.{RequestHead};
ghost use Rattle.message_core.specs.Head.{StartsWith};
ghost use Rattle.message_core.specs.Request.{values_in};
ghost use Rattle.page_routes.specs.Visits as visits;

use browser_core::{cookie_name, cookie_named, is_own_post};
use message_core::{Request, header_values};
use settings_core::Settings;
use std::alloc::{AllocError, Global};
use text_core::Text;

/// The person for whom the cookie stands at a minute since 1970-01-01 00:00 UTC, if it stands for
/// one: the one that browsers send by HTTPS alone, or the plain one.
pub fn caller_of(
    alloc: Global,
    settings: &Settings,
    https: bool,
    at: u32,
    request: &Request,
) -> Result<Option<Text>, AllocError>
    ensures { (h : RequestHead) → StartsWith request.now.head h []
        → IfOk result (λ caller. caller ≡ visits.caller_of https settings.now at (values_in h)) }
{
    let lines = header_values(alloc, request.head.as_slice(), "Cookie")?;
    let cookie = cookie_named(cookie_name(https), lines.as_slice());
    caller_by(alloc, settings, at, cookie)
}

/// The person for whom a cookie stands, if there is one and it does.
pub(crate) fn caller_by(
    alloc: Global,
    settings: &Settings,
    at: u32,
    cookie: Option<&str>,
) -> Result<Option<Text>, AllocError>
    ensures { IfOk result (λ caller. caller ≡ visits.caller_by settings.now at
        (option_map (λ c. c.now) cookie.entry)) }
{
    match cookie {
        Some(cookie) => session_core::caller_of(alloc, settings, cookie, at),
        None => Ok(None),
    }
}

/// Whether a post comes from a page of the desk's own, or from no page.
pub(crate) fn is_own(alloc: Global, request: &Request) -> Result<bool, AllocError>
    ensures { (h : RequestHead) → StartsWith request.now.head h []
        → IfOk result (λ own. own ≡ visits.is_own (values_in h)) }
{
    let head = request.head.as_slice();
    let sites = header_values(alloc, head, "Sec-Fetch-Site")?;
    let origins = header_values(alloc, head, "Origin")?;
    let hosts = header_values(alloc, head, "Host")?;
    Ok(is_own_post(sites.as_slice(), origins.as_slice(), hosts.as_slice()))
}
