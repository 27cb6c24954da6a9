//! Signing in.

ghost use Rattle.std.specs.Prelude.{◌≡◌, ◌≢◌, Ok, Err, IfErr, IfOk, Some};
ghost use Rattle.std.specs.Option.{option_map};
ghost use Rattle.browser_core.specs.Form as form;
ghost use Rattle.page_routes.specs.Visits as visits;

use crate::ask::next_with;
use crate::fault::PageFault;
use crate::filled::typed;
use crate::lines::caller_by;
use crate::next::{Next, SubmittedForm};
use crate::page::Page;
use crate::place::{Place, place_at};
use crate::visit::PageRequest;
use browser_core::{Field, fields_of, has, has_fields, text_in, trimmed};
use hours_core::Minute;
use session_core::{Lasts, signed_in};
use settings_core::Settings;
use std::alloc::{AllocError, Global};
use text_core::Text;

/// What a body asks at a minute that signs in.
pub(crate) fn signing(
    alloc: Global,
    settings: &Settings,
    https: bool,
    at: u32,
    body: &[u8],
) -> Result<PageRequest, PageFault>
    ensures ok { IfOk result (λ visit.
        visits.signing https settings.now at (form.fields_of body.now) ≡ Ok visit) }
    ensures err { IfErr result (λ fault. fault ≢ PageFault.NoMemory
        → visits.signing https settings.now at (form.fields_of body.now) ≡ Err fault) }
{
    let Some(fields) = fields_of(alloc, body)? else {
        return Err(PageFault::BadBody);
    };
    let kept = ["keep", "subject", "requestors", "seen", "text", "status"];
    if !has_fields(fields.as_slice(), &["token", "next"], &kept) {
        return Err(PageFault::BadBody);
    }
    Ok(signed(alloc, settings, https, at, fields.as_slice())?)
}

/// Whether the fields hold a token of the settings, and where they lead.
fn signed(
    alloc: Global,
    settings: &Settings,
    https: bool,
    at: u32,
    fields: &[Field],
) -> Result<PageRequest, AllocError>
    ensures { IfOk result (λ visit. visit ≡ visits.signed https settings.now at fields.now) }
{
    match Minute::new(at) {
        Some(moment) => signed_at(alloc, settings, https, moment, fields),
        None => Ok(PageRequest::NoMoment),
    }
}

/// The same at a moment of the desk.
fn signed_at(
    alloc: Global,
    settings: &Settings,
    https: bool,
    moment: Minute,
    fields: &[Field],
) -> Result<PageRequest, AllocError>
    ensures { IfOk result (λ visit. visit ≡ visits.signed_at https settings.now moment fields.now) }
{
    let keep = has(fields, "keep");
    let cookie = cookie_by(alloc, settings, moment, keep, token_in(fields))?;
    let next = next_in(alloc, fields)?;
    signed_with(alloc, settings, https, moment.get(), keep, cookie, next)
}

/// The same by the cookie of what was typed, if there is one.
fn signed_with(
    alloc: Global,
    settings: &Settings,
    https: bool,
    at: u32,
    keep: bool,
    cookie: Option<Text>,
    next: Next,
) -> Result<PageRequest, AllocError>
    ensures { IfOk result (λ visit.
        visit ≡ visits.signed_with https settings.now at keep cookie next) }
{
    match (cookie, next) {
        (Some(cookie), Next::Page(next)) => Ok(PageRequest::SignedIn {
            https,
            cookie,
            keep,
            next,
        }),
        (Some(cookie), Next::Form(sent)) => {
            let caller = caller_by(alloc, settings, at, Some(cookie.as_str()))?;
            Ok(resumed(https, caller, cookie, keep, sent))
        }
        (None, next) => Ok(PageRequest::NotSignedIn { next }),
    }
}

/// The form that is filled in once more by the person of a cookie.
fn resumed(
    https: bool,
    caller: Option<Text>,
    cookie: Text,
    keep: bool,
    sent: SubmittedForm,
) -> PageRequest
    ensures { result ≡ visits.resumed https caller cookie keep sent }
{
    match caller {
        Some(caller) => PageRequest::Resumed {
            https,
            caller,
            cookie,
            keep,
            sent,
        },
        None => PageRequest::NotSignedIn {
            next: Next::Form(sent),
        },
    }
}

/// What was typed, without spaces and tabs round it.
fn token_in<'f>(fields: &'f [Field]) -> Option<&'f str>
    ensures { option_map (λ t. t.now) result ≡ visits.token_in fields.now }
{
    text_in(trimmed(typed(fields, "token").as_bytes()))
}

/// The cookie of the token that was typed, if the settings have it: for 30 days where it is to be
/// kept, and else for 12 hours.
fn cookie_by(
    alloc: Global,
    settings: &Settings,
    moment: Minute,
    keep: bool,
    token: Option<&str>,
) -> Result<Option<Text>, AllocError>
    ensures { IfOk result (λ cookie. cookie ≡ visits.cookie_by settings.now moment keep
        (option_map (λ t. t.now) token.entry)) }
{
    match token {
        Some(token) => signed_in(alloc, settings, token, moment, lasts_of(keep)),
        None => Ok(None),
    }
}

fn lasts_of(keep: bool) -> Lasts
    ensures { result ≡ visits.lasts_of keep }
{
    if keep { Lasts::Month } else { Lasts::Day }
}

/// Where the field `next` leads: to the form whose address it is, where what was typed into it came
/// along; or to the page whose address it is, or else `/`.
fn next_in(alloc: Global, fields: &[Field]) -> Result<Next, AllocError>
    ensures { IfOk result (λ next. next ≡ visits.next_in fields.now) }
{
    match place_at(alloc, typed(fields, "next").as_bytes())? {
        Some(place) => next_at(alloc, place, fields),
        None => Ok(Next::Page(Page::Home)),
    }
}

fn next_at(alloc: Global, place: Place, fields: &[Field]) -> Result<Next, AllocError>
    ensures { IfOk result (λ next. next ≡ visits.next_from (Some place) fields.now) }
{
    if has(fields, "text") {
        next_with(alloc, place, fields)
    } else {
        Ok(Next::Page(page_or_home(place)))
    }
}

fn page_or_home(place: Place) -> Page
    ensures { result ≡ visits.page_or_home (Some place) }
{
    match place {
        Place::Page(page) => page,
        _ => Page::Home,
    }
}
