//! The page of a refusal or of a form that wasn't sent, and the way back from it. What was typed is
//! kept.
ghost use Rattle.std.specs.Prelude.{◌≡◌, ◌++◌, IfOk, OnOk};
ghost use Rattle.page_core.specs.Page.{page_bytes};
ghost use Rattle.std.specs.Option.{option_map};
ghost use Rattle.desk_pages.specs.RefusalPage as form;
ghost use Rattle.desk_pages.specs.Write.{comment, reply};

use crate::ask::{Typed, put_ask_again};
use crate::frame::{Place, put_bottom, put_top};
use crate::markup::refused::{TO_QUEUES, TYPED_END, TYPED_TOP};
use crate::refused::{heading_of, put_crumb, put_refusal, put_to_queue, put_to_request};
use crate::unsent::{Unsent, put_why, title_of};
use crate::write::{put_comment, put_reply};
use desk_model::Refusal;
use hours_core::Minute;
use page_core::fill;
use std::alloc::{AllocError, Global};

/// The page of a refusal of a reading, or of the second of two commands, for a caller at a moment.
pub fn refusal_page(
    alloc: Global,
    refusal: &Refusal,
    caller: &str,
    moment: Minute,
) -> Result<Vec<u8>, AllocError>
    ensures { IfOk result (λ page. page.items
        ≡ page_bytes (form.refusal_page refusal.now caller.now moment)) }
{
    let mut out = Vec::new(alloc);
    put_top(&mut out, heading_of(refusal), Place::Elsewhere, caller)?;
    put_refusal(&mut out, refusal)?;
    fill(&mut out, TO_QUEUES, &[], &[])?;
    put_bottom(&mut out, moment)?;
    Ok(out)
}

/// The page of a form on no request that wasn't sent, for a caller at a moment.
pub fn unsent_page(
    alloc: Global,
    why: &Unsent,
    caller: &str,
    moment: Minute,
) -> Result<Vec<u8>, AllocError>
    ensures { IfOk result (λ page. page.items
        ≡ page_bytes (form.unsent_page why.now caller.now moment)) }
{
    let mut out = Vec::new(alloc);
    put_top(&mut out, title_of(why), Place::Elsewhere, caller)?;
    put_why(&mut out, why, caller)?;
    fill(&mut out, TO_QUEUES, &[], &[])?;
    put_bottom(&mut out, moment)?;
    Ok(out)
}

/// The page of a form on a request that wasn't sent, for a caller at a moment. It leads back to the
/// request, also where that isn't there: its number was the caller's own.
pub fn unsent_change_page(
    alloc: Global,
    why: &Unsent,
    caller: &str,
    moment: Minute,
    id: u32,
) -> Result<Vec<u8>, AllocError>
    ensures { IfOk result (λ page. page.items
        ≡ page_bytes (form.unsent_change_page why.now caller.now moment id)) }
{
    let mut out = Vec::new(alloc);
    put_top(&mut out, title_of(why), Place::Elsewhere, caller)?;
    put_crumb(&mut out, id)?;
    put_why(&mut out, why, caller)?;
    put_to_request(&mut out, id)?;
    put_bottom(&mut out, moment)?;
    Ok(out)
}

/// The page of a reply that wasn't sent, for a caller at a moment, with the text that was typed and
/// the status that was chosen. Its form tells `seen` as the number of the last entry that the caller
/// has seen.
pub fn unsent_reply_page(
    alloc: Global,
    why: &Unsent,
    caller: &str,
    moment: Minute,
    id: u32,
    seen: u32,
    text: &str,
    status: Option<&str>,
) -> Result<Vec<u8>, AllocError>
    ensures { IfOk result (λ page. page.items ≡ page_bytes
        (form.unsent_reply_page why.now caller.now moment id seen text.now
        (option_map (λ s. s.now) status.entry))) }
{
    let mut out = Vec::new(alloc);
    put_top(&mut out, title_of(why), Place::Elsewhere, caller)?;
    put_crumb(&mut out, id)?;
    put_why(&mut out, why, caller)?;
    put_reply_form(&mut out, id, caller, seen, text, status, true)?;
    put_to_request(&mut out, id)?;
    put_bottom(&mut out, moment)?;
    Ok(out)
}

/// The page of a comment that wasn't sent, for a caller at a moment, with the text that was typed.
pub fn unsent_comment_page(
    alloc: Global,
    why: &Unsent,
    caller: &str,
    moment: Minute,
    id: u32,
    text: &str,
) -> Result<Vec<u8>, AllocError>
    ensures { IfOk result (λ page. page.items
        ≡ page_bytes (form.unsent_comment_page why.now caller.now moment id text.now)) }
{
    let mut out = Vec::new(alloc);
    put_top(&mut out, title_of(why), Place::Elsewhere, caller)?;
    put_crumb(&mut out, id)?;
    put_why(&mut out, why, caller)?;
    put_comment_form(&mut out, id, caller, text)?;
    put_to_request(&mut out, id)?;
    put_bottom(&mut out, moment)?;
    Ok(out)
}

/// Puts the form for a reply, with the number of the last entry that was seen, the text that was typed
/// and the status that was chosen.
pub(crate) fn put_reply_form(
    out: &mut Vec<u8>,
    id: u32,
    caller: &str,
    seen: u32,
    text: &str,
    status: Option<&str>,
    ticked: bool,
) -> Result<(), AllocError>
    ensures { OnOk result (out.new.items ≡ out.old.items ++ page_bytes (form.typed
        (reply id caller.now seen text.now (option_map (λ s. s.now) status.entry) ticked))) }
{
    fill(out, TYPED_TOP, &[], &[])?;
    put_reply(out, id, caller, seen, text, status, ticked)?;
    fill(out, TYPED_END, &[], &[])
}

fn put_comment_form(out: &mut Vec<u8>, id: u32, caller: &str, text: &str) -> Result<(), AllocError>
    ensures { OnOk result (out.new.items
        ≡ out.old.items ++ page_bytes (form.typed (comment id caller.now text.now))) }
{
    fill(out, TYPED_TOP, &[], &[])?;
    put_comment(out, id, caller, text)?;
    fill(out, TYPED_END, &[], &[])
}

/// The page of a new request that wasn't sent, for a caller at a moment, with what was typed and the
/// status that was chosen.
pub fn unsent_ask_page(
    alloc: Global,
    why: &Unsent,
    caller: &str,
    moment: Minute,
    queue: &str,
    typed: Typed<'_>,
    status: Option<&str>,
) -> Result<Vec<u8>, AllocError>
    ensures { IfOk result (λ page. page.items ≡ page_bytes
        (form.unsent_ask_page why.now caller.now moment queue.now typed.entry.subject.now
        typed.entry.text.now typed.entry.requestors.now (option_map (λ s. s.now) status.entry))) }
{
    let mut out = Vec::new(alloc);
    put_top(&mut out, title_of(why), Place::Elsewhere, caller)?;
    put_why(&mut out, why, caller)?;
    put_ask_again(&mut out, queue, caller, typed, status)?;
    put_to_queue(&mut out, is_found(why), queue)?;
    put_bottom(&mut out, moment)?;
    Ok(out)
}

/// Whether what was asked for is there, as far as the caller may know.
fn is_found(why: &Unsent) -> bool
    ensures { result ≡ form.is_found why.now }
{
    !matches!(why, Unsent::Refused(Refusal::NotFound))
}
