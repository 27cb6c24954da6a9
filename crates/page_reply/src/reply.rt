//! The bytes of a reply with a page, or of one that leads to another place.
ghost use Rattle.std.specs.Prelude.{◌≡◌, ◌++◌, ◌+◌, ◌≤◌, ◌<◌, length, IfOk, OnErr, OnOk};
ghost use Rattle.std.specs.Vec.{vec_capacity, vec_len};
ghost use Rattle.http.specs.StatusCode.{IsStatusCode};
ghost use Rattle.message_core.specs.ReplyHead.{head_start, last_line};
ghost use Rattle.page_reply.specs.PageReply as form;

use browser_core::cookie_name;
use message_core::{add_text, end_head, start_head};
use std::alloc::{AllocError, Global};
use text_core::{Sequence, Text};

/// What a reply does to the browser's cookie: that which browsers take by HTTPS alone, or the plain
/// one.
#[derive(Drop)]
pub enum CookieChange {
    Keep,
    /// It is this one until the browser ends.
    Session { https: bool, text: Text },
    /// It is this one for 30 days.
    Stay { https: bool, text: Text },
    /// It goes, and the pages that the browser keeps.
    Forget { https: bool },
}

/// Which methods a place takes; HEAD goes with GET.
#[derive(Clone, Copy)]
pub enum Methods {
    Get,
    GetAndPost,
}

/// A reply with a page.
#[derive(Drop)]
pub struct PageReply {
    pub status: u16,
    pub cookie: CookieChange,
    /// The place to which it leads.
    pub location: Option<Text>,
    /// What the place takes, where it was asked in another way.
    pub allow: Option<Methods>,
    pub page: Sequence<u8>,
    /// Whether the page is left out, as in reply to a HEAD. Its length is told.
    pub head_only: bool,
}

/// The bytes of a reply, whose status is one of HTTP.
pub fn page_reply(alloc: Global, reply: &PageReply) -> Result<Vec<u8>, AllocError>
    requires { IsStatusCode reply.now.status }
    ensures { IfOk result (λ out. out.items ≡ form.bytes_of reply.now) }
{
    let mut out = Vec::new(alloc);
    start_page_head(&mut out, reply.status, reply.page.len() as u64)?;
    add_own_lines(&mut out, reply)?;
    end_page_head(&mut out)?;
    out.extend_from_slice(body_of(reply))?;
    Ok(out)
}

/// Puts what the head of a page begins with at the end.
pub(crate) fn start_page_head(out: &mut Vec<u8>, status: u16, bytes: u64) -> Result<(), AllocError>
    requires { IsStatusCode status }
    ensures added { OnOk result (out.new.items
        ≡ out.old.items ++ head_start status form.page_kind bytes) }
    ensures full { OnErr result (vec_capacity out.old
        < vec_len out.old + length (head_start status form.page_kind bytes)) }
    ensures capacity { vec_capacity out.old ≤ vec_capacity out.new }
{
    start_head(out, status, page_kind(), bytes)
}

/// Puts what the head of a page ends with at the end.
pub(crate) fn end_page_head(out: &mut Vec<u8>) -> Result<(), AllocError>
    ensures added { OnOk result (out.new.items
        ≡ out.old.items ++ (form.guard_lines ++ last_line)) }
    ensures full { OnErr result (vec_capacity out.old
        < vec_len out.old + length (form.guard_lines ++ last_line)) }
    ensures capacity { vec_capacity out.old ≤ vec_capacity out.new }
{
    add_text(out, guard_lines())?;
    end_head(out)
}

/// Puts the lines of this reply at the end.
#[tactic(auto, unfolding(crate::specs::PageReply::own_lines))]
fn add_own_lines(out: &mut Vec<u8>, reply: &PageReply) -> Result<(), AllocError>
    ensures { OnOk result (out.new.items ≡ out.old.items
        ++ form.own_lines reply.now.cookie reply.now.location reply.now.allow) }
{
    add_cookie_line(out, &reply.cookie)?;
    add_location_line(out, &reply.location)?;
    add_text(out, allow_line(reply.allow))
}

#[tactic(auto, unfolding(crate::specs::PageReply::page_kind))]
fn page_kind() -> &'static str
    ensures { result.now ≡ form.page_kind }
{
    "text/html; charset=utf-8"
}

/// What is written of the page.
fn body_of(reply: &PageReply) -> &[u8]
    ensures { result.now ≡ form.body_of reply.now }
{
    if reply.head_only {
        &[]
    } else {
        reply.page.as_slice()
    }
}

fn add_cookie_line(out: &mut Vec<u8>, cookie: &CookieChange) -> Result<(), AllocError>
    ensures { OnOk result (out.new.items ≡ out.old.items ++ form.cookie_line cookie.now) }
{
    match cookie {
        CookieChange::Keep => Ok(()),
        CookieChange::Session { https, text } => add_session_line(out, *https, text.as_str()),
        CookieChange::Stay { https, text } => add_stay_line(out, *https, text.as_str()),
        CookieChange::Forget { https } => add_forget_line(out, *https),
    }
}

#[tactic(auto, unfolding(crate::specs::PageReply::session_line))]
fn add_session_line(out: &mut Vec<u8>, https: bool, text: &str) -> Result<(), AllocError>
    ensures { OnOk result (out.new.items ≡ out.old.items ++ form.session_line https text.now) }
{
    add_cookie(out, https, text)?;
    add_text(out, "; Path=/; HttpOnly; SameSite=Lax\r\n")
}

#[tactic(auto, unfolding(crate::specs::PageReply::stay_line))]
fn add_stay_line(out: &mut Vec<u8>, https: bool, text: &str) -> Result<(), AllocError>
    ensures { OnOk result (out.new.items ≡ out.old.items ++ form.stay_line https text.now) }
{
    add_cookie(out, https, text)?;
    add_text(out, "; Path=/; Max-Age=2592000; HttpOnly; SameSite=Lax\r\n")
}

#[tactic(auto, unfolding(crate::specs::PageReply::forget_line))]
fn add_forget_line(out: &mut Vec<u8>, https: bool) -> Result<(), AllocError>
    ensures { OnOk result (out.new.items ≡ out.old.items ++ form.forget_line https) }
{
    add_cookie(out, https, "")?;
    add_text(
        out,
        "; Path=/; Max-Age=0; HttpOnly; SameSite=Lax\r\n\
         Clear-Site-Data: \"cache\"\r\n",
    )
}

/// Puts what a line of the cookie begins with: its name and text, and whether it goes by HTTPS alone.
#[tactic(auto, unfolding(crate::specs::PageReply::cookie_start))]
fn add_cookie(out: &mut Vec<u8>, https: bool, text: &str) -> Result<(), AllocError>
    ensures { OnOk result (out.new.items ≡ out.old.items ++ form.cookie_start https text.now) }
{
    add_text(out, "Set-Cookie: ")?;
    add_three(out, cookie_name(https), "=", text)?;
    add_text(out, secure(https))
}

#[tactic(auto, unfolding(crate::specs::PageReply::secure))]
fn secure(https: bool) -> &'static str
    ensures { result.now ≡ form.secure https }
{
    if https { "; Secure" } else { "" }
}

fn add_location_line(out: &mut Vec<u8>, location: &Option<Text>) -> Result<(), AllocError>
    ensures { OnOk result (out.new.items ≡ out.old.items ++ form.location_line location.now) }
{
    match location {
        Some(path) => add_leads_line(out, path.as_str()),
        None => Ok(()),
    }
}

#[tactic(auto, unfolding(crate::specs::PageReply::leads_line))]
fn add_leads_line(out: &mut Vec<u8>, path: &str) -> Result<(), AllocError>
    ensures { OnOk result (out.new.items ≡ out.old.items ++ form.leads_line path.now) }
{
    add_three(out, "Location: ", path, "\r\n")
}

#[tactic(auto, unfolding(crate::specs::PageReply::allow_line))]
pub(crate) fn allow_line(allow: Option<Methods>) -> &'static str
    ensures { result.now ≡ form.allow_line allow }
{
    match allow {
        None => "",
        Some(Methods::Get) => "Allow: GET, HEAD\r\n",
        Some(Methods::GetAndPost) => "Allow: GET, HEAD, POST\r\n",
    }
}

#[tactic(auto, unfolding(crate::specs::PageReply::guard_lines))]
fn guard_lines() -> &'static str
    ensures { result.now ≡ form.guard_lines }
{
    "Cache-Control: no-store\r\nContent-Security-Policy: default-src 'none'; style-src 'self'; \
     form-action 'self'; frame-ancestors 'none'; base-uri 'none'\r\n\
     Referrer-Policy: same-origin\r\nX-Content-Type-Options: nosniff\r\n\
     Cross-Origin-Opener-Policy: same-origin\r\n\
     Cross-Origin-Resource-Policy: same-origin\r\n"
}

/// Puts three texts at the end.
pub(crate) fn add_three(
    out: &mut Vec<u8>,
    first: &str,
    second: &str,
    third: &str,
) -> Result<(), AllocError>
    ensures added { OnOk result (out.new.items
        ≡ out.old.items ++ (first.now ++ (second.now ++ third.now))) }
    ensures full { OnErr result (vec_capacity out.old
        < vec_len out.old + length (first.now ++ (second.now ++ third.now))) }
    ensures capacity { vec_capacity out.old ≤ vec_capacity out.new }
{
    add_text(out, first)?;
    add_text(out, second)?;
    add_text(out, third)
}
