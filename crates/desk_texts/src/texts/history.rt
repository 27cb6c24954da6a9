//! The text of a history.

ghost use Rattle.std.specs.Prelude.{◌≡◌, ◌++◌, IfOk, OnOk, encode_utf8, string_bytes};
ghost use Rattle.std.specs.List.{flat_map};
ghost use Rattle.hours_core.specs.Date.{text_of_minute};
ghost use Rattle.desk_texts.specs.Columns as columns;
ghost use Rattle.desk_texts.specs.Texts.History as history;

use crate::texts::minute::as_text;
use desk_model::{Entry, EntryKind};
use hours_core::minute_text;
use std::alloc::{AllocError, Global};

/// The text of a history: a line for each entry with its number, its moment, who did it and what.
pub fn history_text(alloc: Global, entries: &[Entry]) -> Result<String, AllocError>
    ensures { IfOk result (λ t. string_bytes t ≡ history.history_text entries.now) }
{
    let mut out = String::new(alloc);
    for entry in entries {
        put_entry(&mut out, entry)?;
    }
    Ok(out)
}

#[tactic(auto, unfolding(crate::specs::Texts::History::entry_line))]
fn put_entry(out: &mut String, entry: &Entry) -> Result<(), AllocError>
    ensures { OnOk result (string_bytes out.new
        ≡ string_bytes out.old ++ history.entry_line entry.now) }
{
    put_moment(out, entry)?;
    put_words(out, entry.kind, entry.head.as_str(), entry.body.as_str())?;
    out.push_str("\n")
}

/// The columns of an entry.
fn put_moment(out: &mut String, entry: &Entry) -> Result<(), AllocError>
    ensures { OnOk result (string_bytes out.new ≡ string_bytes out.old
        ++ history.columns entry.now.number (text_of_minute entry.now.moment) entry.now.actor) }
{
    let moment = minute_text(entry.moment);
    put_columns(out, entry.number, as_text(&moment), entry.actor.as_str())
}

/// A number, a moment and a person, each with a space after it.
#[tactic(auto, unfolding(crate::specs::Texts::History::columns))]
fn put_columns(out: &mut String, number: u32, moment: &str, person: &str) -> Result<(), AllocError>
    ensures { OnOk result (string_bytes out.new
        ≡ string_bytes out.old ++ history.columns number moment.now person.now) }
{
    write!(out, "{number:>5} {moment} {person:<20} ")
}

/// What an entry of this kind tells.
fn put_words(out: &mut String, kind: EntryKind, head: &str, body: &str) -> Result<(), AllocError>
    ensures { OnOk result (string_bytes out.new
        ≡ string_bytes out.old ++ history.entry_words kind head.now body.now) }
{
    let word = kind_word(kind);
    match kind {
        EntryKind::Create => put_word(out, word, body),
        EntryKind::Reply => put_text(out, word, body),
        EntryKind::Comment => put_text(out, word, body),
        EntryKind::Status => put_both(out, word, head, body),
        EntryKind::Owner => put_both(out, word, head, body),
        EntryKind::Watch => put_both(out, word, head, body),
        EntryKind::Unwatch => put_both(out, word, head, body),
        EntryKind::Link => put_both(out, word, head, body),
        EntryKind::Unlink => put_both(out, word, head, body),
        EntryKind::Level => put_both(out, word, head, body),
    }
}

fn put_word(out: &mut String, word: &str, body: &str) -> Result<(), AllocError>
    ensures { OnOk result (string_bytes out.new
        ≡ string_bytes out.old ++ columns.then word.now body.now) }
{
    write!(out, "{word} {body}")
}

fn put_both(out: &mut String, word: &str, head: &str, body: &str) -> Result<(), AllocError>
    ensures { OnOk result (string_bytes out.new
        ≡ string_bytes out.old ++ columns.then word.now (columns.then head.now body.now)) }
{
    write!(out, "{word} {head} {body}")
}

/// A word, and a text on one line.
fn put_text(out: &mut String, word: &str, body: &str) -> Result<(), AllocError>
    ensures { OnOk result (string_bytes out.new
        ≡ string_bytes out.old ++ columns.then word.now (history.on_one_line body.now)) }
{
    write!(out, "{word} ")?;
    put_on_one_line(out, body)
}

/// A backslash, a line feed and a tab as a backslash with another backslash, `n` and `t`.
fn put_on_one_line(out: &mut String, text: &str) -> Result<(), AllocError>
    ensures { OnOk result (string_bytes out.new
        ≡ string_bytes out.old ++ history.on_one_line text.now) }
{
    for character in text.chars() {
        put_escaped(out, character)?;
    }
    Ok(())
}

fn put_escaped(out: &mut String, character: char) -> Result<(), AllocError>
    ensures { OnOk result (string_bytes out.new
        ≡ string_bytes out.old ++ history.escape character) }
{
    match character {
        '\\' => out.push_str("\\\\"),
        '\n' => out.push_str("\\n"),
        '\t' => out.push_str("\\t"),
        _ => out.push(character),
    }
}

fn kind_word(kind: EntryKind) -> &'static str
    ensures { result.now ≡ history.kind_word kind }
{
    match kind {
        EntryKind::Create => "create",
        EntryKind::Status => "status",
        EntryKind::Owner => "owner",
        EntryKind::Reply => "reply",
        EntryKind::Comment => "comment",
        EntryKind::Watch => "watch",
        EntryKind::Unwatch => "unwatch",
        EntryKind::Link => "link",
        EntryKind::Unlink => "unlink",
        EntryKind::Level => "level",
    }
}
