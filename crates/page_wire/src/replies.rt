//! Replies with a page, and those that lead to another place.
ghost use Rattle.std.specs.Prelude.{◌≡◌, IfOk};
ghost use Rattle.http.specs.StatusCode.{IsStatusCode};
ghost use Rattle.page_wire.specs.Replies as form;

use desk_core::Refusal;
use desk_pages::refusal_page;
use hours_core::Minute;
use page_reply::{CookieChange, PageReply, page_reply};
use std::alloc::{AllocError, Global};
use text_core::{Sequence, Text};
use wire_core::code_of_refusal;

/// The reply with a page.
pub(crate) fn with_page(alloc: Global, status: u16, page: Vec<u8>) -> Result<Vec<u8>, AllocError>
    requires { IsStatusCode status }
    ensures { IfOk result (λ out. out.items ≡ form.with_page status page.items) }
{
    with_cookie(alloc, CookieChange::Keep, status, page)
}

/// The reply with a page and a cookie.
pub(crate) fn with_cookie(
    alloc: Global,
    cookie: CookieChange,
    status: u16,
    page: Vec<u8>,
) -> Result<Vec<u8>, AllocError>
    requires { IsStatusCode status }
    ensures { IfOk result (λ out. out.items ≡ form.with_cookie cookie status page.items) }
{
    let reply = PageReply {
        status,
        cookie,
        location: None,
        allow: None,
        page: Sequence::from(page),
        head_only: false,
    };
    page_reply(alloc, &reply)
}

/// The reply that leads to another place.
pub(crate) fn leads_to(
    alloc: Global,
    cookie: CookieChange,
    place: Text,
) -> Result<Vec<u8>, AllocError>
    ensures { IfOk result (λ out. out.items ≡ form.leads_to cookie place) }
{
    let reply = PageReply {
        status: 303,
        cookie,
        location: Some(place),
        allow: None,
        page: Sequence::from(Vec::new(alloc)),
        head_only: false,
    };
    page_reply(alloc, &reply)
}

/// The reply with the page of a refusal.
pub(crate) fn refused(
    alloc: Global,
    caller: &str,
    moment: Minute,
    refusal: &Refusal,
) -> Result<Vec<u8>, AllocError>
    ensures { IfOk result (λ out. out.items ≡ form.refused caller.now moment refusal.now) }
{
    let page = refusal_page(alloc, refusal, caller, moment)?;
    with_page(alloc, code_of_refusal(refusal), page)
}

/// The cookie of one who signs in: for 30 days, or until the browser ends.
pub(crate) fn cookie_for(https: bool, keep: bool, text: Text) -> CookieChange
    ensures { result ≡ form.cookie_for https keep text }
{
    if keep {
        CookieChange::Stay { https, text }
    } else {
        CookieChange::Session { https, text }
    }
}
