//! The page of a request.
ghost use Rattle.std.specs.Prelude.{◌≡◌, ◌++◌, [], false, IfOk, OnOk, string_bytes};
ghost use Rattle.std.specs.Option.{option_map};
ghost use Rattle.page_core.specs.Page.{page_bytes};
ghost use Rattle.desk_pages.specs.Pieces.{parts_if};
ghost use Rattle.desk_pages.specs.Request as form;
ghost use Rattle.desk_pages.specs.Write.{reply};

use crate::change::{is_open, put_change};
use crate::facts::put_facts;
use crate::frame::{Place, put_bottom, put_top};
use crate::history::{last_number, put_history};
use crate::markup::request::{COMMENT_END, COMMENT_TOP, REPLY_TOP, REQUEST_TOP, WRITING_END};
use crate::moves::closing_after;
use crate::rights::{may_comment, may_modify, may_reply};
use crate::write::{put_comment, put_reply};
use desk_model::{Dossier, RequestRow};
use hours_core::Minute;
use page_core::{Value, fill};
use settings_core::Settings;
use std::alloc::{AllocError, Global};

/// The page of a request, for a caller at a moment: what is known of it, what happened, the forms
/// for a reply and a comment, and those that change it, as far as the caller may. For whoever may
/// change it each person and each link has a cross, which opens a button that takes it out or away.
/// The class of its status is that of the lifecycle of its queue; where the settings have no such
/// lifecycle, it has none. Local time by the calendar of its level stands beside when it is due and
/// when it was filed. Beside the number of a request that it is linked with stand the subject and the
/// status of its row, if there is one among `rows`.
pub fn request_page(
    alloc: Global,
    caller: &str,
    moment: Minute,
    settings: &Settings,
    dossier: &Dossier,
    rows: &[RequestRow],
) -> Result<Vec<u8>, AllocError>
    ensures { IfOk result (λ page. page.items ≡ page_bytes
        (form.request_page caller.now moment settings.now dossier.now rows.now)) }
{
    let row = &dossier.shown.row;
    let title = title_of(alloc, row.id, row.subject.as_str())?;
    let mut out = Vec::new(alloc);
    put_top(&mut out, title.as_str(), Place::Elsewhere, caller)?;
    put_content(alloc, &mut out, caller, moment, settings, dossier, rows)?;
    put_bottom(&mut out, moment)?;
    Ok(out)
}

#[tactic(auto, unfolding(crate::specs::Request::request_title))]
fn title_of(alloc: Global, id: u32, subject: &str) -> Result<String, AllocError>
    ensures { IfOk result (λ t. string_bytes t ≡ form.request_title id subject.now) }
{
    let mut title = String::new(alloc);
    write!(title, "#{id} {subject}")?;
    Ok(title)
}

fn put_content(
    alloc: Global,
    out: &mut Vec<u8>,
    caller: &str,
    moment: Minute,
    settings: &Settings,
    dossier: &Dossier,
    rows: &[RequestRow],
) -> Result<(), AllocError>
    ensures { OnOk result (out.new.items ≡ out.old.items ++ page_bytes
        (form.request_content caller.now moment settings.now dossier.now rows.now)) }
{
    let id = dossier.shown.row.id;
    put_told(out, id, caller, moment, settings, dossier, rows)?;
    put_acts(alloc, out, id, caller, settings, dossier)
}

/// Puts what is told of the request of this number.
fn put_told(
    out: &mut Vec<u8>,
    id: u32,
    caller: &str,
    moment: Minute,
    settings: &Settings,
    dossier: &Dossier,
    rows: &[RequestRow],
) -> Result<(), AllocError>
    ensures { OnOk result (out.new.items ≡ out.old.items ++ page_bytes
        (form.request_shown id caller.now moment settings.now dossier.now rows.now)) }
{
    let shown = &dossier.shown;
    let buttons = may_modify(settings, shown, caller);
    put_heading(out, &shown.row)?;
    put_facts(out, buttons, id, caller, moment, settings, dossier, rows)?;
    put_history(out, dossier.entries.as_slice())
}

/// Puts what may be done with it.
fn put_acts(
    alloc: Global,
    out: &mut Vec<u8>,
    id: u32,
    caller: &str,
    settings: &Settings,
    dossier: &Dossier,
) -> Result<(), AllocError>
    ensures { OnOk result (out.new.items ≡ out.old.items ++ page_bytes
        (form.request_acts id caller.now settings.now dossier.now)) }
{
    let replies = may_reply(settings, &dossier.shown, caller);
    let comments = may_comment(settings, &dossier.shown, caller);
    let status = closing_for(caller, settings, dossier);
    let seen = last_number(dossier.entries.as_slice());
    put_writing(out, id, caller, seen, status, replies, comments)?;
    put_change(alloc, out, caller, settings, dossier)
}

#[tactic(auto, unfolding(crate::specs::Request::request_top))]
fn put_heading(out: &mut Vec<u8>, row: &RequestRow) -> Result<(), AllocError>
    ensures { OnOk result (out.new.items
        ≡ out.old.items ++ page_bytes (form.request_top row.now)) }
{
    let values = [
        Value::Text(row.queue.as_str()),
        Value::Text(row.queue.as_str()),
        Value::Number(row.id),
        Value::Text(row.subject.as_str()),
    ];
    fill(out, REQUEST_TOP, &values, &[])
}

/// The status to which the request can be moved with a reply: the first inactive one, where the
/// lifecycle lets it move there once the reply has moved it, but by no requestor.
fn closing_for<'s>(caller: &str, settings: &'s Settings, dossier: &Dossier) -> Option<&'s str>
    ensures { option_map (λ s. s.now) result
        ≡ form.closing_for caller.now settings.entry.now dossier.now }
{
    if is_open(caller, &dossier.shown) {
        let lifecycle = settings.lifecycle(dossier.queue.lifecycle.as_str());
        closing_after(lifecycle, dossier.shown.row.status.as_str())
    } else {
        None
    }
}

#[tactic(auto, unfolding(crate::specs::Request::writing))]
fn put_writing(
    out: &mut Vec<u8>,
    id: u32,
    caller: &str,
    seen: u32,
    status: Option<&str>,
    replies: bool,
    comments: bool,
) -> Result<(), AllocError>
    ensures { OnOk result (out.new.items ≡ out.old.items ++ page_bytes
        (form.writing id caller.now seen (option_map (λ s. s.now) status.entry) replies comments)) }
{
    fill(out, REPLY_TOP, &[], &[])?;
    put_replying(out, id, caller, seen, status, replies)?;
    put_commenting(out, id, caller, replies, comments)?;
    fill(out, WRITING_END, &[], &[!replies && !comments])
}

/// Puts the form for a reply, where one may be sent.
fn put_replying(
    out: &mut Vec<u8>,
    id: u32,
    caller: &str,
    seen: u32,
    status: Option<&str>,
    replies: bool,
) -> Result<(), AllocError>
    ensures { OnOk result (out.new.items ≡ out.old.items ++ page_bytes (parts_if replies
        (reply id caller.now seen [] (option_map (λ s. s.now) status.entry) false))) }
{
    if replies {
        put_reply(out, id, caller, seen, "", status, false)
    } else {
        Ok(())
    }
}

/// Puts the form for a comment, where one may be sent: folded beside a reply.
#[tactic(auto, unfolding(crate::specs::Request::commenting))]
fn put_commenting(
    out: &mut Vec<u8>,
    id: u32,
    caller: &str,
    replies: bool,
    comments: bool,
) -> Result<(), AllocError>
    ensures { OnOk result (out.new.items ≡ out.old.items ++ page_bytes
        (parts_if comments (form.commenting id caller.now replies))) }
{
    if !comments {
        return Ok(());
    }
    fill(out, COMMENT_TOP, &[], &[!replies, replies])?;
    put_comment(out, id, caller, "")?;
    fill(out, COMMENT_END, &[], &[])
}
