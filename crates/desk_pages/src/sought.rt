//! What is sought, in words: above what was found, and in the title of its page.
ghost use Rattle.std.specs.Prelude.{◌≡◌, ◌++◌, [], codes, map, string_bytes, IfOk, OnOk};
ghost use Rattle.desk_pages.specs.Sought as form;

use crate::frame::Place;
use find_form::FindForm;
use std::alloc::{AllocError, Global};
use text_core::Text;

/// A part of what is sought.
#[derive(Clone, Copy)]
pub struct SearchPart<'f> {
    /// Whether it is sought.
    pub asked: bool,
    /// The field that says so.
    pub field: &'f str,
    /// Another field, which says nothing without that one; empty if there is none.
    pub beside: &'f str,
    /// The words in front of what was typed.
    pub front: &'f str,
    /// What was typed.
    pub value: &'f str,
    /// The words behind it.
    pub back: &'f str,
}

/// What stands round the words that are sought.
const OPENED: &str = "“";

const CLOSED: &str = "”";

/// What is told of what nobody owns.
const NOBODYS: &str = "nobody’s";

/// Each part that a search may have, and whether this one has it.
pub(crate) fn sought_in(typed: &FindForm) -> [SearchPart<'_>; 11]
    ensures { map form.plain result ≡ form.told_in typed.now }
{
    let owner = typed.owner.as_str();
    [
        sought_words(typed.words.as_str()),
        sought_by(typed.replies.as_str(), "replies", "also in texts", ""),
        sought_by(typed.queue.as_str(), "queue", "in ", typed.queue.as_str()),
        sought_by(typed.state.as_str(), "state", "", typed.state.as_str()),
        sought_by(
            typed.status.as_str(),
            "status",
            "status ",
            typed.status.as_str(),
        ),
        sought_by(owner, "owner", owner_front(owner), owner_value(owner)),
        sought_by(
            typed.requestor.as_str(),
            "requestor",
            "asked by ",
            asker(typed.requestor.as_str()),
        ),
        sought_turn(typed.turn.as_str()),
        sought_by(typed.late.as_str(), "late", "late", ""),
        sought_by(
            typed.from.as_str(),
            "from",
            "filed from ",
            typed.from.as_str(),
        ),
        sought_by(typed.to.as_str(), "to", "filed to ", typed.to.as_str()),
    ]
}

/// Words, and whether they may stand in texts too.
fn sought_words(words: &str) -> SearchPart<'_>
    ensures { form.plain result ≡ form.told_words words.entry.now }
{
    SearchPart {
        asked: !words.is_empty(),
        field: "words",
        beside: "replies",
        front: OPENED,
        value: words,
        back: CLOSED,
    }
}

/// What is sought where something was typed for a field.
fn sought_by<'f>(typed: &'f str, field: &'f str, front: &'f str, value: &'f str) -> SearchPart<'f>
    ensures { form.plain result
        ≡ form.told typed.entry.now field.entry.now front.entry.now value.entry.now }
{
    SearchPart {
        asked: !typed.is_empty(),
        field,
        beside: "",
        front,
        value,
        back: "",
    }
}

/// Whose it is: mine, nobody's, or a person's by name.
fn owner_front(owner: &str) -> &'static str
    ensures { result.now ≡ form.owner_front owner.now }
{
    if owner == "Me" {
        "mine"
    } else if owner == "Nobody" {
        NOBODYS
    } else {
        "owned by "
    }
}

fn owner_value(owner: &str) -> &str
    ensures { result.now ≡ form.owner_value owner.now }
{
    if owner == "Me" || owner == "Nobody" {
        ""
    } else {
        owner
    }
}

fn asker(requestor: &str) -> &str
    ensures { result.now ≡ form.asker requestor.now }
{
    if requestor == "Me" { "me" } else { requestor }
}

/// For whom it waits.
fn sought_turn(turn: &str) -> SearchPart<'_>
    ensures { form.plain result
        ≡ form.told turn.entry.now (codes "turn") (form.turn_front turn.entry.now) [] }
{
    SearchPart {
        asked: !turn.is_empty(),
        field: "turn",
        beside: "",
        front: turn_front(turn),
        value: "",
        back: "",
    }
}

fn turn_front(turn: &str) -> &'static str
    ensures { result.now ≡ form.turn_front turn.now }
{
    if turn == "desk" {
        "waits for the desk"
    } else {
        "waits for who asked"
    }
}

/// Whether anything is sought that no list has in its heading.
fn is_narrowed(typed: &FindForm) -> bool
    ensures { result ≡ form.is_narrowed typed.now }
{
    !typed.words.as_str().is_empty()
        || !typed.replies.as_str().is_empty()
        || !typed.status.as_str().is_empty()
        || !typed.owner.as_str().is_empty()
        || !typed.requestor.as_str().is_empty()
        || !typed.turn.as_str().is_empty()
        || !typed.from.as_str().is_empty()
        || !typed.to.as_str().is_empty()
}

/// Whether anything is sought.
pub(crate) fn is_set(typed: &FindForm) -> bool
    ensures { result ≡ form.is_set typed.now }
{
    is_narrowed(typed)
        || !typed.queue.as_str().is_empty()
        || !typed.state.as_str().is_empty()
        || !typed.late.as_str().is_empty()
}

/// Whether it is what is open, what is closed, or all in a queue.
fn is_queue_list(typed: &FindForm) -> bool
    ensures { result ≡ form.is_queue_list typed.now }
{
    !typed.queue.as_str().is_empty() && !is_narrowed(typed) && typed.late.as_str().is_empty()
}

/// Whether it is all that is late, the most overdue first.
pub(crate) fn is_late_list(typed: &FindForm) -> bool
    ensures { result ≡ form.is_late_list typed.now }
{
    typed.late.as_str() == "yes"
        && typed.order.as_str() == "due"
        && typed.queue.as_str().is_empty()
        && typed.state.as_str().is_empty()
        && !is_narrowed(typed)
}

/// Whether it has to be told what is sought: where the heading doesn't tell it.
pub(crate) fn is_told(typed: &FindForm) -> bool
    ensures { result ≡ form.is_told typed.now }
{
    is_set(typed) && !is_queue_list(typed) && !is_late_list(typed)
}

/// Which of the pages that each page leads to it is.
pub(crate) fn place_of(typed: &FindForm) -> Place
    ensures { result ≡ form.place_of typed.now }
{
    if is_late_list(typed) {
        Place::Late
    } else if is_queue_list(typed) {
        Place::Elsewhere
    } else {
        Place::Find
    }
}

/// The heading of its page.
pub(crate) fn heading_of(typed: &FindForm) -> &str
    ensures { result.now ≡ form.heading_of typed.now }
{
    if is_late_list(typed) {
        "Late"
    } else if typed.queue.as_str().is_empty() {
        "Find"
    } else {
        typed.queue.as_str()
    }
}

/// The title of its page: what is sought, where that has to be told, or the heading.
pub(crate) fn title_of(alloc: Global, typed: &FindForm) -> Result<Text, AllocError>
    ensures { IfOk result (λ title. title ≡ form.title_of typed.now) }
{
    if is_told(typed) {
        told_title(alloc, &sought_in(typed))
    } else {
        Text::new(alloc, heading_of(typed))
    }
}

fn told_title(alloc: Global, parts: &[SearchPart<'_>]) -> Result<Text, AllocError>
    ensures { IfOk result (λ title. title ≡ form.told_title (map form.plain parts.now)) }
{
    let mut title = String::new(alloc);
    for part in parts {
        push_told(&mut title, part)?;
    }
    title.push_str("Find")?;
    Ok(Text::from(title))
}

/// Puts the words of a part that is sought, and a comma.
fn push_told(title: &mut String, part: &SearchPart<'_>) -> Result<(), AllocError>
    ensures { OnOk result (string_bytes title.new
        ≡ string_bytes title.old ++ form.words_of (form.plain part.now)) }
{
    if !part.asked {
        return Ok(());
    }
    title.push_str(part.front)?;
    title.push_str(part.value)?;
    title.push_str(part.back)?;
    title.push_str(", ")
}
