//! The request that a command has filed already, where it is sent once more.
ghost use Rattle.std.specs.Prelude.{◌≡◌, false, IfErr};
ghost use Rattle.std.specs.List.{list_all, list_any};
ghost use Rattle.std.specs.Option.{option_map_or};
ghost use Rattle.text_core.specs.Texts.{is_among};
ghost use Rattle.desk_model.specs.Step.{facts_of};
ghost use Rattle.store_tables.specs.Calls.{LeavesTables, Tells};
ghost use Rattle.store_core.specs.Seen.{state_of};
ghost use Rattle.service_core.specs.Filed as filed;
ghost use Rattle.service_core.specs.Filed.{FiledOn};
ghost use Rattle.service_core.specs.Seen.{settings_of, tables_of};

use crate::desk::Desk;
use desk_core::{Call, Command, Entry, EntryKind, Refusal, SeenRequest};
use std::alloc::Global;
use store_core::{Backend, Store};
use text_core::{Text, Texts};

/// It is looked for among so many of the newest requests.
const NEWEST: u32 = 100;

/// For so many minutes it counts as the same.
const MINUTES: u32 = 10;

impl<S: Backend> Desk<S> {
    /// The number of the request that the caller filed already as this command would, and that the
    /// caller may show: ten minutes ago at most, in the same queue, with the same subject and
    /// requestors, and with this text as a reply of the caller's, where one is given. It is looked
    /// for among the last hundred requests, of which the newest counts; no other command than
    /// `Create` has filed one. The moment is in minutes since 1970-01-01 00:00 UTC.
    ///
    /// `Unavailable` where memory or the store refused. The tables stay as they are, whatever rows
    /// they have.
    pub fn filed_lately(
        &mut self,
        alloc: Global,
        at: u32,
        caller: &str,
        create: &Command,
        text: &Option<Text>,
    ) -> Result<Option<u32>, Refusal>
        ensures filed { FiledOn (settings_of S.Store self.old) at caller.now create.now text.now
            result (tables_of S.Store self.old) (tables_of S.Store self.new) }
        ensures kept { LeavesTables (tables_of S.Store self.old) (tables_of S.Store self.new) }
        ensures same { settings_of S.Store self.new ≡ settings_of S.Store self.old }
        ensures fault { IfErr result (λ refusal. refusal ≡ Refusal.Unavailable) }
    {
        let call = Call {
            settings: &self.settings,
            at,
            caller,
        };
        among_newest(alloc, &mut self.store, call, create, text)
    }
}

/// The same, over the store of the desk.
#[tactic(auto, using(store_tables::proofs::Spared::joined, store_tables::proofs::Spared::unread))]
fn among_newest<S: Backend>(
    alloc: Global,
    store: &mut Store<S>,
    call: Call<'_>,
    create: &Command,
    text: &Option<Text>,
) -> Result<Option<u32>, Refusal>
    ensures filed { Tells (λ desk found. found ≡ filed.filed_lately call.entry.settings.now
        call.entry.at call.entry.caller.now create.now text.now desk)
        (state_of S.Store store.old) (state_of S.Store store.new) result }
    ensures kept { LeavesTables (state_of S.Store store.old) (state_of S.Store store.new) }
    ensures fault { IfErr result (λ refusal. refusal ≡ Refusal.Unavailable) }
{
    match create {
        Command::Create { .. } => {
            let last = last_number(alloc, store, create)?;
            filed_to(alloc, store, call, create, text, last, NEWEST)
        }
        _ => Ok(None),
    }
}

/// How many requests a command sees that there are, which is the last number.
fn last_number<S: Backend>(
    alloc: Global,
    store: &mut Store<S>,
    create: &Command,
) -> Result<u32, Refusal>
    ensures told { Tells (λ desk last. last ≡ (facts_of create.now desk).request_count)
        (state_of S.Store store.old) (state_of S.Store store.new) result }
    ensures kept { LeavesTables (state_of S.Store store.old) (state_of S.Store store.new) }
    ensures fault { IfErr result (λ refusal. refusal ≡ Refusal.Unavailable) }
{
    let facts = store.facts_for(alloc, create)?;
    let last = facts.request_count;
    drop(facts);
    Ok(last)
}

/// The newest such request, from this number down, among so many.
#[tactic(auto, using(store_tables::proofs::Spared::joined, store_tables::proofs::Spared::unread))]
fn filed_to<S: Backend>(
    alloc: Global,
    store: &mut Store<S>,
    call: Call<'_>,
    create: &Command,
    text: &Option<Text>,
    last: u32,
    most: u32,
) -> Result<Option<u32>, Refusal>
    ensures filed { Tells (λ desk found. found ≡ filed.filed_to call.entry.settings.now
        call.entry.at call.entry.caller.now create.now text.now desk last most)
        (state_of S.Store store.old) (state_of S.Store store.new) result }
    ensures kept { LeavesTables (state_of S.Store store.old) (state_of S.Store store.new) }
    ensures fault { IfErr result (λ refusal. refusal ≡ Refusal.Unavailable) }
{
    if last == 0 || most == 0 {
        return Ok(None);
    }
    let is = is_filed_at(alloc, store, call, create, text, last)?;
    if is {
        return Ok(Some(last));
    }
    filed_to(alloc, store, call, create, text, last - 1, most - 1)
}

/// Whether the request with this number is such a one.
#[tactic(auto, using(store_tables::proofs::Spared::joined, store_tables::proofs::Spared::stands_for))]
fn is_filed_at<S: Backend>(
    alloc: Global,
    store: &mut Store<S>,
    call: Call<'_>,
    create: &Command,
    text: &Option<Text>,
    id: u32,
) -> Result<bool, Refusal>
    ensures told { Tells (λ desk is. is ≡ filed.is_filed_at call.entry.settings.now call.entry.at
        call.entry.caller.now create.now text.now desk id)
        (state_of S.Store store.old) (state_of S.Store store.new) result }
    ensures kept { LeavesTables (state_of S.Store store.old) (state_of S.Store store.new) }
    ensures fault { IfErr result (λ refusal. refusal ≡ Refusal.Unavailable) }
{
    let is_row = is_row_at(alloc, store, call, create, id)?;
    if !is_row {
        return Ok(false);
    }
    let entries = store.entries_of(alloc, id)?;
    Ok(is_filed_with(call.caller, text, entries.as_slice()))
}

/// Whether the request with this number is there, the caller may show it, and it is as the command
/// would file it.
fn is_row_at<S: Backend>(
    alloc: Global,
    store: &mut Store<S>,
    call: Call<'_>,
    create: &Command,
    id: u32,
) -> Result<bool, Refusal>
    ensures told { Tells (λ desk is. is ≡ filed.is_row_at call.entry.settings.now call.entry.at
        call.entry.caller.now create.now desk id)
        (state_of S.Store store.old) (state_of S.Store store.new) result }
    ensures kept { LeavesTables (state_of S.Store store.old) (state_of S.Store store.new) }
    ensures fault { IfErr result (λ refusal. refusal ≡ Refusal.Unavailable) }
{
    let history = Command::History { id };
    let read = store.facts_for(alloc, &history);
    drop(history);
    let facts = read?;
    let is = is_row(call, create, &facts.request);
    drop(facts);
    Ok(is)
}

fn is_row(call: Call<'_>, create: &Command, request: &Option<SeenRequest>) -> bool
    ensures { result ≡ option_map_or (filed.is_row call.entry.settings.now call.entry.at
        call.entry.caller.now create.now) request.now false }
{
    match request {
        Some(request) => {
            request.is_shown_to(call.settings, call.caller) && is_as(call, create, request)
        }
        None => false,
    }
}

/// Whether the request is as the command would file it, and not too old.
fn is_as(call: Call<'_>, create: &Command, request: &SeenRequest) -> bool
    ensures { result
        ≡ filed.is_as call.entry.at call.entry.caller.now create.now request.now }
{
    match create {
        Command::Create {
            queue,
            subject,
            requestors,
            ..
        } => {
            request.row.queue.as_str() == queue.as_str()
                && request.row.subject.as_str() == subject.as_str()
                && are_requestors(call.caller, requestors, &request.requestors)
                && call.at.saturating_sub(MINUTES) <= request.row.created.get()
        }
        _ => false,
    }
}

/// Whether these are the requestors given, or the caller alone where none is given.
fn are_requestors(caller: &str, given: &Texts, persons: &Texts) -> bool
    ensures { result ≡ filed.are_requestors caller.now given.now persons.now }
{
    are_given(caller, given, persons.as_slice()) && have_all(persons, given.as_slice())
}

fn are_given(caller: &str, given: &Texts, persons: &[Text]) -> bool
    ensures { result ≡ list_all (filed.is_given caller.now given.now) persons.now }
{
    persons
        .iter()
        .all(|person| is_given(caller, given, person.as_str()))
}

fn have_all(persons: &Texts, given: &[Text]) -> bool
    ensures { result ≡ list_all (is_among persons.now) given.now }
{
    given.iter().all(|person| persons.contains(person.as_str()))
}

fn is_given(caller: &str, given: &Texts, person: &str) -> bool
    ensures { result ≡ filed.is_given caller.now given.now person.now }
{
    if given.as_slice().is_empty() {
        person == caller
    } else {
        given.contains(person)
    }
}

/// Whether a request with this history was filed by the caller, with this text, where one is given.
fn is_filed_with(caller: &str, text: &Option<Text>, entries: &[Entry]) -> bool
    ensures { result ≡ filed.is_filed_with caller.now text.now entries.now }
{
    is_filer(caller, entries) && has_text(caller, text, entries)
}

fn is_filer(caller: &str, entries: &[Entry]) -> bool
    ensures { result ≡ filed.is_filer caller.now entries.now }
{
    match entries.first() {
        Some(entry) => entry.actor.as_str() == caller,
        None => false,
    }
}

fn has_text(caller: &str, text: &Option<Text>, entries: &[Entry]) -> bool
    ensures { result ≡ filed.has_text caller.now text.now entries.now }
{
    match text {
        Some(text) => have_reply(caller, text.as_str(), entries),
        None => true,
    }
}

fn have_reply(caller: &str, text: &str, entries: &[Entry]) -> bool
    ensures { result ≡ list_any (filed.is_reply caller.now text.now) entries.now }
{
    entries.iter().any(|entry| is_reply(caller, text, entry))
}

/// Whether an entry is a reply of the caller's with this text.
fn is_reply(caller: &str, text: &str, entry: &Entry) -> bool
    ensures { result ≡ filed.is_reply caller.now text.now entry.now }
{
    match entry.kind {
        EntryKind::Reply => entry.actor.as_str() == caller && entry.body.as_str() == text,
        _ => false,
    }
}
