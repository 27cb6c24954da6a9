//! What a visit comes to.
ghost use Rattle.std.specs.Prelude.{◌≡◌, ◌≤◌, [], Err, IfErr, IfOk, Ok, OnErr, OnOk};
ghost use Rattle.std.specs.Vec.{vec_capacity};
ghost use Rattle.service_core.specs.Leaves.{LeavesDesk};
ghost use Rattle.service_core.specs.Seen.{settings_of, tables_of};
ghost use Rattle.page_wire.specs.Steps.{TimedPageStepsOn};
ghost use Rattle.page_wire.specs.Visits as form;
ghost use Rattle.wire_core.specs.Steps.{StaysOn};

use crate::faults::clock_reply;
use crate::render::render_page;
use crate::replies::{cookie_for, leads_to};
use crate::sign_in::{sign_in, sign_in_to};
use crate::submit::submit_form;
use crate::unsent::{bad_form_reply, other_person_reply, resumed_reply};
use desk_core::Command;
use desk_style::style_sheet;
use hours_core::Minute;
use page_reply::{CookieChange, sheet_reply};
use page_routes::{Page, PageRequest, SubmittedForm, page_path};
use service_core::Desk;
use std::alloc::{AllocError, Global};
use store_core::Backend;
use text_core::Text;

/// Makes a visit at a moment, in minutes since 1970-01-01 00:00 UTC, and puts its reply into the
/// room. Out of memory nothing is done, and nothing is put.
#[tactic(auto, using(service_core::proofs::LeftLemmas::left_same))]
pub(crate) fn make_visit<S: Backend>(
    alloc: Global,
    visit: &PageRequest,
    at: u32,
    desk: &mut Desk<S>,
    room: &mut Vec<u8>,
) -> Result<(), AllocError>
    requires empty { room.old.items ≡ [] }
    requires room { 512 ≤ vec_capacity room.old }
    ensures ok { OnOk result (TimedPageStepsOn (settings_of S.Store desk.old) at visit.now
        room.new.items (tables_of S.Store desk.old) (tables_of S.Store desk.new)) }
    ensures err { OnErr result ((room.new ≡ room.old) × StaysOn (settings_of S.Store desk.old)
        (tables_of S.Store desk.old) (tables_of S.Store desk.new)) }
    ensures left { LeavesDesk S.Store desk.old desk.new }
{
    match (visit, Minute::new(at)) {
        (PageRequest::Look { caller, page }, Some(moment)) => {
            let made = render_page(alloc, caller.as_str(), page, moment, desk);
            put(made, room)
        }
        (
            PageRequest::Act {
                caller,
                command,
                sent,
            },
            Some(moment),
        ) => submit_form(alloc, caller.as_str(), command, sent, moment, desk, room),
        (
            PageRequest::OtherPerson {
                caller,
                person,
                sent,
            },
            Some(moment),
        ) => {
            let made = other_person_reply(alloc, caller.as_str(), moment, person, sent);
            put(made, room)
        }
        (PageRequest::BadForm { caller, sent }, Some(moment)) => {
            let made = bad_form_reply(alloc, caller.as_str(), moment, sent);
            put(made, room)
        }
        (
            PageRequest::Resumed {
                https,
                caller,
                cookie,
                keep,
                sent,
            },
            Some(moment),
        ) => {
            let made = resumed_reply(alloc, *https, caller.as_str(), moment, cookie, *keep, sent);
            put(made, room)
        }
        _ => put(fixed(alloc, visit), room),
    }
}

/// Puts bytes that were made in place of the room.
fn put(made: Result<Vec<u8>, AllocError>, room: &mut Vec<u8>) -> Result<(), AllocError>
    ensures ok { OnOk result (made ≡ Ok room.new) }
    ensures err { IfErr result (λ refused. (room.new ≡ room.old) × (made ≡ Err refused)) }
{
    match made {
        Ok(bytes) => {
            *room = bytes;
            Ok(())
        }
        Err(refused) => Err(refused),
    }
}

/// The reply to a visit where the desk is asked for nothing: a page and a form have it where their
/// moment is none of the desk's.
fn fixed(alloc: Global, visit: &PageRequest) -> Result<Vec<u8>, AllocError>
    ensures { IfOk result (λ out. form.IsFixed visit.now out.items) }
{
    match visit {
        PageRequest::Style => sheet_reply(alloc, style_sheet().as_bytes()),
        PageRequest::SignIn => sign_in_to(alloc, 200, &Page::Home, false, false),
        PageRequest::SignedIn {
            https,
            cookie,
            keep,
            next,
        } => signed_in(alloc, *https, cookie, *keep, next),
        PageRequest::NotSignedIn { next } => sign_in(alloc, 403, next, true, false),
        PageRequest::SignOut { https } => signed_out(alloc, *https),
        PageRequest::Leads(next) => leads_on(alloc, next),
        PageRequest::Unknown { next, to_get } => sign_in(alloc, 403, next, false, *to_get),
        PageRequest::NoMoment
        | PageRequest::Look { .. }
        | PageRequest::Resumed { .. }
        | PageRequest::OtherPerson { .. }
        | PageRequest::BadForm { .. }
        | PageRequest::Act { .. } => clock_reply(alloc),
    }
}

/// Leads to a page, with the cookie of one who signed in.
fn signed_in(
    alloc: Global,
    https: bool,
    cookie: &Text,
    keep: bool,
    next: &Page,
) -> Result<Vec<u8>, AllocError>
    ensures { IfOk result (λ out. out.items ≡ form.signed_in https cookie.now keep next.now) }
{
    let place = page_path(alloc, next)?;
    let cookie = cookie.clone()?;
    leads_to(alloc, cookie_for(https, keep, cookie), place)
}

/// Leads to the page on which one signs in, without a cookie.
fn signed_out(alloc: Global, https: bool) -> Result<Vec<u8>, AllocError>
    ensures { IfOk result (λ out. out.items ≡ form.signed_out https) }
{
    let place = Text::new(alloc, "/sign-in")?;
    leads_to(alloc, CookieChange::Forget { https }, place)
}

/// Leads to a page.
fn leads_on(alloc: Global, next: &Page) -> Result<Vec<u8>, AllocError>
    ensures { IfOk result (λ out. out.items ≡ form.leads_on next.now) }
{
    let place = page_path(alloc, next)?;
    leads_to(alloc, CookieChange::Keep, place)
}
