//! A reply that somebody overtook, and what is told of a text that isn't sent.
ghost use Rattle.std.specs.Prelude.{◌≡◌, IfOk, Ok};
ghost use Rattle.std.specs.Option.{option_map};
ghost use Rattle.page_wire.specs.Overtaken as form;
ghost use Rattle.page_wire.specs.Redirect.{led_by};

use crate::redirect::{ROOM, put_redirect_by};
use crate::replies::with_page;
use crate::twice::is_told;
use crate::unsent::{as_str, refused_reply};
use desk_core::{Dossier, Refusal};
use desk_model::{Entry, EntryKind};
use desk_pages::{Unsent, last_number, overtaken_page, unsent_reply_page};
use hours_core::Minute;
use page_routes::SubmittedForm;
use std::alloc::{AllocError, Global};
use text_core::Text;

/// The reply that is told in place of a text that isn't sent to a request, by its dossier: where the
/// text was sent already, it leads there; where somebody overtook a reply, or where its form tells of an
/// entry behind the last one, 409 and the form with the text once more; and where the desk can't look,
/// 503.
pub(crate) fn told_before(
    alloc: Global,
    caller: &str,
    moment: Minute,
    sent: &SubmittedForm,
    dossier: &Result<Dossier, Refusal>,
) -> Result<Option<Vec<u8>>, AllocError>
    ensures { IfOk result (λ told. option_map (λ out. out.items) told
        ≡ form.told_before caller.now moment sent.now dossier.now) }
{
    match dossier {
        Ok(dossier) => told_of(alloc, caller, moment, sent, dossier),
        Err(Refusal::Unavailable) => {
            let refusal = Refusal::Unavailable;
            Ok(Some(refused_reply(alloc, caller, moment, sent, refusal)?))
        }
        Err(_) => Ok(None),
    }
}

fn told_of(
    alloc: Global,
    caller: &str,
    moment: Minute,
    sent: &SubmittedForm,
    dossier: &Dossier,
) -> Result<Option<Vec<u8>>, AllocError>
    ensures { IfOk result (λ told. option_map (λ out. out.items) told
        ≡ form.told_before caller.now moment sent.now (Ok dossier.now)) }
{
    if is_told(caller, moment, sent, dossier) {
        Ok(Some(led(alloc, sent)?))
    } else {
        held_reply(alloc, caller, moment, sent, dossier)
    }
}

/// The reply that leads where a form leads.
fn led(alloc: Global, sent: &SubmittedForm) -> Result<Vec<u8>, AllocError>
    ensures { IfOk result (λ out. out.items ≡ led_by sent.now) }
{
    let mut out = Vec::with_capacity(alloc, ROOM)?;
    put_redirect_by(sent, &mut out);
    Ok(out)
}

/// The reply that is told where a reply is held back.
fn held_reply(
    alloc: Global,
    caller: &str,
    moment: Minute,
    sent: &SubmittedForm,
    dossier: &Dossier,
) -> Result<Option<Vec<u8>>, AllocError>
    ensures { IfOk result (λ told. option_map (λ out. out.items) told
        ≡ form.held_reply caller.now moment sent.now dossier.now) }
{
    match sent {
        SubmittedForm::Reply {
            id,
            seen,
            text,
            status,
        } => {
            let (text, status) = (text.as_str(), as_str(status));
            if is_ahead(*seen, dossier.entries.as_slice()) {
                Ok(Some(ahead_reply(alloc, caller, moment, dossier, *id, text, status)?))
            } else {
                overtaken_reply(alloc, caller, moment, dossier, *seen, text, status)
            }
        }
        _ => Ok(None),
    }
}

/// Whether a form tells of an entry behind the last one.
fn is_ahead(seen: u32, entries: &[Entry]) -> bool
    ensures { result ≡ form.is_ahead seen entries.now }
{
    last_number(entries) < seen
}

/// The reply with the form once more, which tells the last entry.
fn ahead_reply(
    alloc: Global,
    caller: &str,
    moment: Minute,
    dossier: &Dossier,
    id: u32,
    text: &str,
    status: Option<&str>,
) -> Result<Vec<u8>, AllocError>
    ensures { IfOk result (λ out. out.items ≡ form.ahead_reply caller.now moment dossier.now id
        text.now (option_map (λ s. s.now) status.entry)) }
{
    let why = Unsent::Ahead;
    let seen = last_number(dossier.entries.as_slice());
    let page = unsent_reply_page(alloc, &why, caller, moment, id, seen, text, status)?;
    with_page(alloc, 409, page)
}

/// The reply with what came meanwhile, where somebody overtook this one.
fn overtaken_reply(
    alloc: Global,
    caller: &str,
    moment: Minute,
    dossier: &Dossier,
    seen: u32,
    text: &str,
    status: Option<&str>,
) -> Result<Option<Vec<u8>>, AllocError>
    ensures { IfOk result (λ told. option_map (λ out. out.items) told
        ≡ form.overtaken_reply caller.now moment dossier.now seen text.now
        (option_map (λ s. s.now) status.entry)
        (form.overtaker caller.now seen dossier.now.entries)) }
{
    match overtaker(caller, seen, dossier.entries.as_slice()) {
        Some(entry) => {
            let page = overtaken_page(alloc, caller, moment, entry, dossier, seen, text, status)?;
            Ok(Some(with_page(alloc, 409, page)?))
        }
        None => Ok(None),
    }
}

/// The first entry behind `seen` for which a reply of the caller waits.
fn overtaker<'e>(caller: &str, seen: u32, entries: &'e [Entry]) -> Option<&'e Entry>
    ensures { option_map (λ e. e.now) result ≡ form.overtaker caller.now seen entries.now }
{
    entries.iter().find(|entry| overtakes(caller, seen, entry))
}

fn overtakes(caller: &str, seen: u32, entry: &Entry) -> bool
    ensures { result ≡ form.overtakes caller.now seen entry.now }
{
    entry.number > seen && weighs(entry.kind) && entry.actor.as_str() != caller
}

/// Whether a reply may have to heed an entry of this kind.
fn weighs(kind: EntryKind) -> bool
    ensures { result ≡ form.weighs kind }
{
    matches!(
        kind,
        EntryKind::Reply | EntryKind::Status | EntryKind::Owner
    )
}
