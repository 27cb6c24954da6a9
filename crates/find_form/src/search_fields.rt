//! What is sought by what was typed.

ghost use Rattle.std.specs.Prelude.{◌≡◌, ◌≢◌, ◌<◌, ◌≤◌, Err, IfErr, IfOk, Ok};
ghost use Rattle.find_form.specs.SearchFields as spec;

use crate::fault::FindFault;
use crate::form::FindForm;
use crate::words::words_in;
use desk_model::Turn;
use find_core::{Order, OwnerAsked, Search, StatusAsked};
use hours_core::Minute;
use settings_form::form::TextForm;
use settings_form::text_forms::{day_of, has_form};
use std::alloc::{AllocError, Global};
use text_core::{Text, is_name};

/// What is sought by what was typed, where `Me` is the caller. `back` turns the order round, to go
/// back in what is found.
///
/// `Name`, `Day`, `Choice` or `Both` is the first fault of what was typed. `NoMemory` may come in
/// place of any answer.
pub fn search_of(
    alloc: Global,
    caller: &str,
    back: bool,
    form: &FindForm,
) -> Result<Search, FindFault>
    ensures ok { IfOk result (λ search. spec.search_of caller.now back form.now ≡ Ok search) }
    ensures err { IfErr result (λ fault. fault ≢ FindFault.NoMemory
        → spec.search_of caller.now back form.now ≡ Err fault) }
{
    match fault_of(form) {
        Some(fault) => Err(fault),
        None => Ok(sought(alloc, caller, back, form)?),
    }
}

/// The first fault of what was typed.
fn fault_of(form: &FindForm) -> Option<FindFault>
    ensures { result ≡ spec.fault_of form.now }
{
    if !has_names(form) {
        Some(FindFault::Name)
    } else if !has_days(form) {
        Some(FindFault::Day)
    } else if !has_choices(form) {
        Some(FindFault::Choice)
    } else if has_both(form) {
        Some(FindFault::Both)
    } else {
        None
    }
}

fn has_names(form: &FindForm) -> bool
    ensures { result ≡ spec.has_names form.now }
{
    is_name_typed(form.queue.as_str())
        && is_name_typed(form.status.as_str())
        && is_owner_typed(form.owner.as_str())
        && is_person_typed(form.requestor.as_str())
}

fn is_name_typed(text: &str) -> bool
    ensures { result ≡ spec.is_name_typed text.now }
{
    text.is_empty() || is_name(text)
}

fn is_person_typed(text: &str) -> bool
    ensures { result ≡ spec.is_person_typed text.now }
{
    is_name_typed(text) || text == "Me"
}

fn is_owner_typed(text: &str) -> bool
    ensures { result ≡ spec.is_owner_typed text.now }
{
    is_person_typed(text) || text == "Nobody"
}

fn has_days(form: &FindForm) -> bool
    ensures { result ≡ spec.has_days form.now }
{
    is_day_typed(form.from.as_str()) && is_day_typed(form.to.as_str())
}

fn is_day_typed(text: &str) -> bool
    ensures { result ≡ spec.is_day_typed text.now }
{
    text.is_empty() || has_form(TextForm::Day, text)
}

fn has_choices(form: &FindForm) -> bool
    ensures { result ≡ spec.has_choices form.now }
{
    is_tick(form.replies.as_str())
        && is_tick(form.late.as_str())
        && is_state(form.state.as_str())
        && is_turn(form.turn.as_str())
        && is_order(form.order.as_str())
}

fn is_tick(text: &str) -> bool
    ensures { result ≡ spec.is_tick text.now }
{
    text.is_empty() || text == "yes"
}

fn is_state(text: &str) -> bool
    ensures { result ≡ spec.is_state text.now }
{
    text.is_empty() || text == "open" || text == "closed"
}

fn is_turn(text: &str) -> bool
    ensures { result ≡ spec.is_turn text.now }
{
    text.is_empty() || text == "desk" || text == "requestor"
}

fn is_by_due(text: &str) -> bool
    ensures { result ≡ spec.is_by_due text.now }
{
    text == "due" || text == "due-last"
}

fn is_by_last(text: &str) -> bool
    ensures { result ≡ spec.is_by_last text.now }
{
    text == "active" || text == "quiet"
}

fn is_by_number(text: &str) -> bool
    ensures { result ≡ spec.is_by_number text.now }
{
    text.is_empty() || text == "newest" || text == "oldest"
}

fn is_order(text: &str) -> bool
    ensures { result ≡ spec.is_order text.now }
{
    is_by_number(text) || is_by_due(text) || is_by_last(text)
}

fn has_both(form: &FindForm) -> bool
    ensures { result ≡ spec.has_both form.now }
{
    !form.state.as_str().is_empty() && !form.status.as_str().is_empty()
}

fn sought(alloc: Global, caller: &str, back: bool, form: &FindForm) -> Result<Search, AllocError>
    ensures { IfOk result (λ search. search ≡ spec.sought caller.now back form.now) }
{
    Ok(Search {
        words: words_in(alloc, form.words.as_str())?,
        in_replies: form.replies.as_str() == "yes",
        queue: name_asked(alloc, form.queue.as_str())?,
        status: status_asked(alloc, form.state.as_str(), form.status.as_str())?,
        owner: owner_asked(alloc, caller, form.owner.as_str())?,
        requestor: person_asked(alloc, caller, form.requestor.as_str())?,
        turn: turn_asked(form.turn.as_str()),
        late: form.late.as_str() == "yes",
        filed_from: day_asked(0, form.from.as_str()),
        filed_to: day_asked(1, form.to.as_str()),
        order: order_asked(form.order.as_str()),
        descending: differs(back, descends(form.order.as_str())),
    })
}

fn differs(one: bool, other: bool) -> bool
    ensures { result ≡ spec.differs one other }
{
    if one { !other } else { other }
}

fn name_asked(alloc: Global, text: &str) -> Result<Option<Text>, AllocError>
    ensures { IfOk result (λ name. name ≡ spec.name_asked text.now) }
{
    if text.is_empty() {
        Ok(None)
    } else {
        Ok(Some(Text::new(alloc, text)?))
    }
}

/// The person who was typed, where `Me` is the caller.
fn person_of<'t>(caller: &'t str, text: &'t str) -> &'t str
    ensures { result.now ≡ spec.person_of caller.now text.now }
{
    if text == "Me" { caller } else { text }
}

fn person_asked(alloc: Global, caller: &str, text: &str) -> Result<Option<Text>, AllocError>
    ensures { IfOk result (λ person. person ≡ spec.person_asked caller.now text.now) }
{
    if text.is_empty() {
        Ok(None)
    } else {
        Ok(Some(Text::new(alloc, person_of(caller, text))?))
    }
}

fn owner_asked(alloc: Global, caller: &str, text: &str) -> Result<OwnerAsked, AllocError>
    ensures { IfOk result (λ owner. owner ≡ spec.owner_asked caller.now text.now) }
{
    if text.is_empty() {
        Ok(OwnerAsked::Anyone)
    } else if text == "Nobody" {
        Ok(OwnerAsked::Nobody)
    } else {
        let person = Text::new(alloc, person_of(caller, text))?;
        Ok(OwnerAsked::Person(person))
    }
}

fn state_asked(state: &str) -> StatusAsked
    ensures { result ≡ spec.state_asked state.now }
{
    if state == "open" {
        StatusAsked::Open
    } else if state == "closed" {
        StatusAsked::Inactive
    } else {
        StatusAsked::Any
    }
}

fn status_asked(alloc: Global, state: &str, status: &str) -> Result<StatusAsked, AllocError>
    ensures { IfOk result (λ asked. asked ≡ spec.status_asked state.now status.now) }
{
    if status.is_empty() {
        Ok(state_asked(state))
    } else {
        Ok(StatusAsked::One(Text::new(alloc, status)?))
    }
}

fn turn_asked(text: &str) -> Option<Turn>
    ensures { result ≡ spec.turn_asked text.now }
{
    if text == "desk" {
        Some(Turn::Desk)
    } else if text == "requestor" {
        Some(Turn::Requestor)
    } else {
        None
    }
}

/// The minutes of a day.
const DAY: u64 = 1440;

/// The first moment of a day, by its number.
fn first_of_day(day: u64) -> Option<Minute>
    requires { day < 4294967297 }
    ensures { result ≡ spec.first_of_day day }
{
    let minute = day * DAY;
    if minute <= 4_294_967_295 {
        Minute::new(minute as u32)
    } else {
        None
    }
}

/// The first moment of the day that was typed, or of the day so many days later.
fn day_asked(later: u64, text: &str) -> Option<Minute>
    requires { later ≤ 1 }
    ensures { result ≡ spec.day_asked later text.now }
{
    if text.is_empty() {
        None
    } else {
        first_of_day(u64::from(day_of(text)) + later)
    }
}

fn order_asked(text: &str) -> Order
    ensures { result ≡ spec.order_asked text.now }
{
    if is_by_due(text) {
        Order::ByDue
    } else if is_by_last(text) {
        Order::ByLast
    } else {
        Order::ByNumber
    }
}

/// Whether the greatest number, the latest due moment or the latest entry comes first.
fn descends(text: &str) -> bool
    ensures { result ≡ spec.descends text.now }
{
    text.is_empty() || text == "newest" || text == "due-last" || text == "active"
}
