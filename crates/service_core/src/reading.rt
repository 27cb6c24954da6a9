//! What commands that read answer, of the tables.
ghost use Rattle.std.specs.Prelude.{◌≡◌, ℕ, IfErr, filter};
ghost use Rattle.desk_model.specs.Commands.{IsReading};
ghost use Rattle.desk_model.specs.declared.facts.Facts.{Facts};
ghost use Rattle.store_tables.specs.Calls.{LeavesTables, Tells};
ghost use Rattle.store_core.specs.Seen.{state_of};
ghost use Rattle.service_core.specs.Asked.{asked};
ghost use Rattle.service_core.specs.Decided.{Answers, AnswersDue};
ghost use Rattle.service_core.specs.Shown as shown;

use crate::links::links_of;
use crate::queues::queues;
use desk_core::{Answer, Call, Command, Entry, Facts, Links, Refusal, SeenRequest, Shown, due_of};
use hours_core::Minute;
use settings_core::Settings;
use std::alloc::Global;
use store_core::{Backend, Store};
use text_core::{Sequence, Text};

/// What a command that reads answers, with its facts. `Unavailable` where memory or the store
/// refused. The tables stay as they are.
#[tactic(auto, using(crate::proofs::Stepping::asked_as, crate::proofs::Stepping::due_as))]
pub(crate) fn read<S: Backend>(
    alloc: Global,
    store: &mut Store<S>,
    call: Call<'_>,
    command: &Command,
    facts: &Facts,
) -> Result<Answer, Refusal>
    requires { IsReading command.now }
    ensures told { AnswersDue call.entry.settings.now (asked call.entry command.now) facts.now
        (state_of S.Store store.old) (state_of S.Store store.new) result }
    ensures kept { LeavesTables (state_of S.Store store.old) (state_of S.Store store.new) }
    ensures fault { IfErr result (λ refusal. refusal ≡ Refusal.Unavailable) }
{
    match command {
        Command::Queues => queues(alloc, store, call.settings, call.caller),
        Command::Show { .. } => show(alloc, store, call, facts),
        Command::List { queue } => list(alloc, store, call, queue),
        Command::History { .. } => history(alloc, store, call, facts),
        Command::Overdue => overdue(alloc, store, call),
        Command::Workload => workload(alloc, store, call),
        _ => unreachable!(),
    }
}

/// The request that a command sees, as it is shown to the caller. `Unavailable` where memory or the
/// store refused. The tables stay as they are.
pub(crate) fn show<S: Backend>(
    alloc: Global,
    store: &mut Store<S>,
    call: Call<'_>,
    facts: &Facts,
) -> Result<Answer, Refusal>
    ensures told { (id : ℕ)
        → Answers call.entry.settings.now (asked call.entry (Command.Show id)) facts.now
        (state_of S.Store store.old) (state_of S.Store store.new) result }
    ensures kept { LeavesTables (state_of S.Store store.old) (state_of S.Store store.new) }
    ensures fault { IfErr result (λ refusal. refusal ≡ Refusal.Unavailable) }
{
    match &facts.request {
        Some(request) => shown_to(alloc, store, call, due_in(call.settings, facts), request),
        None => Ok(Answer::Done),
    }
}

/// When the request of these facts is due, if it and its queue are there.
fn due_in(settings: &Settings, facts: &Facts) -> Option<Minute>
    ensures { result ≡ shown.due_in settings.now facts.now }
{
    match (&facts.queue, &facts.request) {
        (Some(queue), Some(request)) => {
            due_of(settings, queue, &request.row, facts.stays.as_slice())
        }
        _ => None,
    }
}

/// A request with this due moment, as it is shown to the caller.
fn shown_to<S: Backend>(
    alloc: Global,
    store: &mut Store<S>,
    call: Call<'_>,
    due: Option<Minute>,
    request: &SeenRequest,
) -> Result<Answer, Refusal>
    ensures told { Tells (λ desk answer. answer
        ≡ Answer.Shown (shown.shown_to call.entry.settings.now call.entry.caller.now due
        request.now desk))
        (state_of S.Store store.old) (state_of S.Store store.new) result }
    ensures kept { LeavesTables (state_of S.Store store.old) (state_of S.Store store.new) }
    ensures fault { IfErr result (λ refusal. refusal ≡ Refusal.Unavailable) }
{
    let links = links_of(alloc, store, call.settings, call.caller, request.row.id)?;
    let copy = request.clone()?;
    Ok(Answer::Shown(shown_with(copy, due, links)))
}

/// What is shown of a request with this due moment and these links.
fn shown_with(request: SeenRequest, due: Option<Minute>, links: Links) -> Shown
    ensures { result ≡ shown.shown_with request due links }
{
    Shown {
        row: request.row,
        requestors: request.requestors,
        cc: request.cc,
        admin_cc: request.admin_cc,
        due,
        links,
    }
}

/// The requests of the queue that the caller may show, with the due moments that the tables keep.
/// `Unavailable` where memory or the store refused. The tables stay as they are.
fn list<S: Backend>(
    alloc: Global,
    store: &mut Store<S>,
    call: Call<'_>,
    queue: &Text,
) -> Result<Answer, Refusal>
    ensures told { (facts : Facts)
        → AnswersDue call.entry.settings.now (asked call.entry (Command.List queue.now)) facts
        (state_of S.Store store.old) (state_of S.Store store.new) result }
    ensures kept { LeavesTables (state_of S.Store store.old) (state_of S.Store store.new) }
    ensures fault { IfErr result (λ refusal. refusal ≡ Refusal.Unavailable) }
{
    let lines = desk_reports::list(alloc, store, call.settings, call.caller, queue)?;
    Ok(Answer::Listed(lines))
}

/// The requests that the caller may show and that were due before the moment, by the due moments
/// that the tables keep. `Unavailable` where memory or the store refused. The tables stay as they
/// are.
fn overdue<S: Backend>(
    alloc: Global,
    store: &mut Store<S>,
    call: Call<'_>,
) -> Result<Answer, Refusal>
    ensures told { (facts : Facts)
        → AnswersDue call.entry.settings.now (asked call.entry Command.Overdue) facts
        (state_of S.Store store.old) (state_of S.Store store.new) result }
    ensures kept { LeavesTables (state_of S.Store store.old) (state_of S.Store store.new) }
    ensures fault { IfErr result (λ refusal. refusal ≡ Refusal.Unavailable) }
{
    let lines = desk_reports::overdue(alloc, store, call)?;
    Ok(Answer::Late(lines))
}

/// What each owner has of the requests that the caller may show, by the due moments that the tables
/// keep. `Unavailable` where memory or the store refused. The tables stay as they are.
fn workload<S: Backend>(
    alloc: Global,
    store: &mut Store<S>,
    call: Call<'_>,
) -> Result<Answer, Refusal>
    ensures told { (facts : Facts)
        → AnswersDue call.entry.settings.now (asked call.entry Command.Workload) facts
        (state_of S.Store store.old) (state_of S.Store store.new) result }
    ensures kept { LeavesTables (state_of S.Store store.old) (state_of S.Store store.new) }
    ensures fault { IfErr result (λ refusal. refusal ≡ Refusal.Unavailable) }
{
    let loads = desk_reports::workload(alloc, store, call)?;
    Ok(Answer::Workload(loads))
}

/// The history of the request that a command sees, as far as it is told to the caller.
/// `Unavailable` where memory or the store refused. The tables stay as they are.
pub(crate) fn history<S: Backend>(
    alloc: Global,
    store: &mut Store<S>,
    call: Call<'_>,
    facts: &Facts,
) -> Result<Answer, Refusal>
    ensures told { (id : ℕ)
        → Answers call.entry.settings.now (asked call.entry (Command.History id)) facts.now
        (state_of S.Store store.old) (state_of S.Store store.new) result }
    ensures kept { LeavesTables (state_of S.Store store.old) (state_of S.Store store.new) }
    ensures fault { IfErr result (λ refusal. refusal ≡ Refusal.Unavailable) }
{
    match &facts.request {
        Some(request) => told_to(alloc, store, call, request),
        None => Ok(Answer::Done),
    }
}

/// The history of a request, as far as it is told to the caller.
fn told_to<S: Backend>(
    alloc: Global,
    store: &mut Store<S>,
    call: Call<'_>,
    request: &SeenRequest,
) -> Result<Answer, Refusal>
    ensures told { Tells (λ desk answer. answer
        ≡ Answer.History (shown.told_to call.entry.settings.now call.entry.caller.now
        request.now desk))
        (state_of S.Store store.old) (state_of S.Store store.new) result }
    ensures kept { LeavesTables (state_of S.Store store.old) (state_of S.Store store.new) }
    ensures fault { IfErr result (λ refusal. refusal ≡ Refusal.Unavailable) }
{
    let comments = request.shows_comments_to(call.settings, call.caller);
    let entries = store.entries_of(alloc, request.row.id)?;
    Ok(Answer::History(told(entries, comments)))
}

/// The entries, with the comments or without them.
fn told(mut entries: Vec<Entry>, comments: bool) -> Sequence<Entry>
    ensures { result ≡ filter (shown.is_told comments) entries.items }
{
    entries.retain(|entry| is_told(entry, comments));
    Sequence::from(entries)
}

/// Whether an entry is told: a comment only where comments may be shown.
fn is_told(entry: &Entry, comments: bool) -> bool
    ensures { result ≡ shown.is_told comments entry.now }
{
    !entry.kind.is_comment() || comments
}
