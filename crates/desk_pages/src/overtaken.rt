//! The page of a reply that somebody overtook: what came meanwhile, and the reply once more.
ghost use Rattle.std.specs.Prelude.{◌≡◌, ◌++◌, IfOk, OnOk};
ghost use Rattle.std.specs.Option.{option_map};
ghost use Rattle.page_core.specs.Page.{page_bytes};
ghost use Rattle.desk_pages.specs.Overtaken as form;

use crate::frame::{Place, put_bottom, put_top};
use crate::history::{last_number, put_newer};
use crate::markup::refused::OVERTAKEN;
use crate::refusal::put_reply_form;
use crate::refused::{put_crumb, put_to_request};
use crate::unsent::waiting_heading;
use desk_model::{Dossier, Entry, EntryKind};
use hours_core::Minute;
use page_core::{Value, fill};
use std::alloc::{AllocError, Global};

/// The page of a reply that waits for a caller who has seen the entries up to the one numbered `seen`,
/// since somebody made this entry meanwhile. It shows what came behind `seen`, and its form tells the
/// last entry of all, with the text that was typed and the status that was chosen.
pub fn overtaken_page(
    alloc: Global,
    caller: &str,
    moment: Minute,
    entry: &Entry,
    dossier: &Dossier,
    seen: u32,
    text: &str,
    status: Option<&str>,
) -> Result<Vec<u8>, AllocError>
    ensures { IfOk result (λ page. page.items ≡ page_bytes
        (form.overtaken_page caller.now moment entry.now dossier.now seen text.now
        (option_map (λ s. s.now) status.entry))) }
{
    let mut out = Vec::new(alloc);
    put_top(&mut out, waiting_heading(), Place::Elsewhere, caller)?;
    put_content(&mut out, caller, entry, dossier, seen, text, status)?;
    put_bottom(&mut out, moment)?;
    Ok(out)
}

fn put_content(
    out: &mut Vec<u8>,
    caller: &str,
    entry: &Entry,
    dossier: &Dossier,
    seen: u32,
    text: &str,
    status: Option<&str>,
) -> Result<(), AllocError>
    ensures { OnOk result (out.new.items ≡ out.old.items ++ page_bytes (form.overtaken_content
        caller.now entry.now dossier.now seen text.now (option_map (λ s. s.now) status.entry))) }
{
    put_crumb(out, dossier.shown.row.id)?;
    put_overtaken(out, entry)?;
    put_newer(out, seen, dossier.entries.as_slice())?;
    put_reply_again(out, caller, dossier, text, status)?;
    put_to_request(out, dossier.shown.row.id)
}

/// Puts the form for a reply with the last entry of all.
fn put_reply_again(
    out: &mut Vec<u8>,
    caller: &str,
    dossier: &Dossier,
    text: &str,
    status: Option<&str>,
) -> Result<(), AllocError>
    ensures { OnOk result (out.new.items ≡ out.old.items ++ page_bytes (form.reply_again caller.now
        dossier.now text.now (option_map (λ s. s.now) status.entry))) }
{
    let seen = last_number(dossier.entries.as_slice());
    put_reply_form(out, dossier.shown.row.id, caller, seen, text, status, true)
}

/// Puts who made an entry meanwhile.
#[tactic(auto, unfolding(crate::specs::Overtaken::overtaken))]
fn put_overtaken(out: &mut Vec<u8>, entry: &Entry) -> Result<(), AllocError>
    ensures { OnOk result (out.new.items
        ≡ out.old.items ++ page_bytes (form.overtaken entry.now)) }
{
    let values = [
        Value::Text(entry.actor.as_str()),
        Value::Text(deed_of(entry.kind)),
    ];
    fill(out, OVERTAKEN, &values, &[])
}

/// What somebody did who made an entry of this kind.
fn deed_of(kind: EntryKind) -> &'static str
    ensures { result.now ≡ form.deed_of kind }
{
    match kind {
        EntryKind::Reply => "wrote",
        _ => "changed it",
    }
}
