//! The history of a request.
ghost use Rattle.std.specs.Prelude.{◌≡◌, ◌++◌, OnOk};
ghost use Rattle.std.specs.List.{flat_map};
ghost use Rattle.desk_texts.specs.Texts.History as words;
ghost use Rattle.page_core.specs.Page.{page_bytes};
ghost use Rattle.desk_pages.specs.History as form;

use crate::markup::history::{
    COMMENTED, ENTRY, ENTRY_END, ENTRY_TIME, FILED, HISTORY_END, HISTORY_TOP, LEVEL_CHANGED,
    LINKED, MOVED, NEWER_END, NEWER_TOP, OWNER_CHANGED, PUT_IN, REPLIED, TAKEN_OUT, UNLINKED,
    WRITTEN,
};
use desk_model::{Entry, EntryKind};
use hours_core::Minute;
use page_core::{Value, fill};
use std::alloc::AllocError;

/// Puts the entries of a request, each in the words of its kind.
pub(crate) fn put_history(out: &mut Vec<u8>, entries: &[Entry]) -> Result<(), AllocError>
    ensures { OnOk result (out.new.items
        ≡ out.old.items ++ page_bytes (form.history entries.now)) }
{
    fill(out, HISTORY_TOP, &[], &[])?;
    put_entries(out, entries)?;
    fill(out, HISTORY_END, &[], &[])
}

/// Puts the entries behind the one of this number, as what came meanwhile.
pub(crate) fn put_newer(out: &mut Vec<u8>, seen: u32, entries: &[Entry]) -> Result<(), AllocError>
    ensures { OnOk result (out.new.items
        ≡ out.old.items ++ page_bytes (form.newer seen entries.now)) }
{
    fill(out, NEWER_TOP, &[], &[])?;
    put_newer_entries(out, seen, entries)?;
    fill(out, NEWER_END, &[], &[])
}

fn put_newer_entries(out: &mut Vec<u8>, seen: u32, entries: &[Entry]) -> Result<(), AllocError>
    ensures { OnOk result (out.new.items ≡ out.old.items
        ++ page_bytes (flat_map form.entry (form.newer_entries seen entries.now))) }
{
    for entry in entries {
        if entry.number > seen {
            put_entry(out, entry)?;
        }
    }
    Ok(())
}

/// The number of the last of these entries, and 0 where there is none.
pub fn last_number(entries: &[Entry]) -> u32
    ensures { result ≡ form.last_number entries.now }
{
    let mut last = 0;
    for entry in entries {
        last = entry.number;
    }
    last
}

fn put_entries(out: &mut Vec<u8>, entries: &[Entry]) -> Result<(), AllocError>
    ensures { OnOk result (out.new.items
        ≡ out.old.items ++ page_bytes (flat_map form.entry entries.now)) }
{
    for entry in entries {
        put_entry(out, entry)?;
    }
    Ok(())
}

#[tactic(auto, unfolding(crate::specs::History::entry))]
fn put_entry(out: &mut Vec<u8>, entry: &Entry) -> Result<(), AllocError>
    ensures { OnOk result (out.new.items ≡ out.old.items ++ page_bytes (form.entry entry.now)) }
{
    put_head(out, entry)?;
    put_telling(out, entry.kind, entry.head.as_str(), entry.body.as_str())?;
    put_moment(out, entry.moment)?;
    put_text_of(out, entry.kind, entry.body.as_str())?;
    fill(out, ENTRY_END, &[], &[])
}

#[tactic(auto, unfolding(crate::specs::History::head))]
fn put_head(out: &mut Vec<u8>, entry: &Entry) -> Result<(), AllocError>
    ensures { OnOk result (out.new.items ≡ out.old.items ++ page_bytes (form.head entry.now)) }
{
    let values = [
        Value::Number(entry.number),
        Value::Text(kind_word(entry.kind)),
        Value::Number(entry.number),
        Value::Text(entry.actor.as_str()),
    ];
    fill(out, ENTRY, &values, &[])
}

#[tactic(auto, unfolding(crate::specs::History::entry_moment))]
fn put_moment(out: &mut Vec<u8>, moment: Minute) -> Result<(), AllocError>
    ensures { OnOk result (out.new.items
        ≡ out.old.items ++ page_bytes (form.entry_moment moment)) }
{
    fill(
        out,
        ENTRY_TIME,
        &[
            Value::Day(moment),
            Value::Clock(moment),
            Value::Day(moment),
            Value::Clock(moment),
        ],
        &[],
    )
}

fn kind_word(kind: EntryKind) -> &'static str
    ensures { result.now ≡ words.kind_word kind }
{
    match kind {
        EntryKind::Create => "create",
        EntryKind::Status => "status",
        EntryKind::Owner => "owner",
        EntryKind::Reply => "reply",
        EntryKind::Comment => "comment",
        EntryKind::Watch => "watch",
        EntryKind::Unwatch => "unwatch",
        EntryKind::Link => "link",
        EntryKind::Unlink => "unlink",
        EntryKind::Level => "level",
    }
}

/// Puts what an entry of this kind tells.
#[tactic(auto, unfolding(crate::specs::History::telling))]
fn put_telling<'t>(
    out: &mut Vec<u8>,
    kind: EntryKind,
    head: &'t str,
    body: &'t str,
) -> Result<(), AllocError>
    ensures { OnOk result (out.new.items
        ≡ out.old.items ++ page_bytes (form.telling kind head.now body.now)) }
{
    let changed = [Value::Text(head), Value::Text(body)];
    let watched = [Value::Text(body), Value::Text(head)];
    let linked = [Value::Text(head), Value::Text(body), Value::Text(body)];
    match kind {
        EntryKind::Create => fill(out, FILED, &[Value::Text(body)], &[]),
        EntryKind::Status => fill(out, MOVED, &changed, &[]),
        EntryKind::Owner => fill(out, OWNER_CHANGED, &changed, &[]),
        EntryKind::Reply => fill(out, REPLIED, &[], &[]),
        EntryKind::Comment => fill(out, COMMENTED, &[], &[]),
        EntryKind::Watch => fill(out, PUT_IN, &watched, &[]),
        EntryKind::Unwatch => fill(out, TAKEN_OUT, &watched, &[]),
        EntryKind::Link => fill(out, LINKED, &linked, &[]),
        EntryKind::Unlink => fill(out, UNLINKED, &linked, &[]),
        EntryKind::Level => fill(out, LEVEL_CHANGED, &changed, &[]),
    }
}

/// Puts the text of a reply or a comment.
#[tactic(auto, unfolding(crate::specs::History::text_of))]
fn put_text_of(out: &mut Vec<u8>, kind: EntryKind, body: &str) -> Result<(), AllocError>
    ensures { OnOk result (out.new.items
        ≡ out.old.items ++ page_bytes (form.text_of kind body.now)) }
{
    match kind {
        EntryKind::Reply => fill(out, WRITTEN, &[Value::Text(body)], &[]),
        EntryKind::Comment => fill(out, WRITTEN, &[Value::Text(body)], &[]),
        _ => Ok(()),
    }
}
