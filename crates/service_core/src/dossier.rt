//! All that is told of a request, by one look at it.
ghost use Rattle.std.specs.Prelude.{◌≡◌, ℕ, true, IfErr, IfOk, Some, None};
ghost use Rattle.desk_model.specs.Facts.{facts_on_request};
ghost use Rattle.desk_model.specs.Step.{answer_of, refusal_beforehand};
ghost use Rattle.store_tables.specs.Calls.{LeavesTables, Tells};
ghost use Rattle.store_core.specs.Due.{TellsDue};
ghost use Rattle.store_core.specs.Seen.{state_of};
ghost use Rattle.service_core.specs.Dossiers.{DossierOn, DossierWhere, IsTold};
ghost use Rattle.service_core.specs.Seen.{settings_of, tables_of};

use crate::desk::Desk;
use crate::reading::{history, show};
use desk_core::{
    Answer, Call, Command, Dossier, Entry, Facts, QueueRow, Refusal, Shown, decide_on_facts,
    refusal_without_facts,
};
use std::alloc::{AllocError, Global};
use store_core::{Backend, Store};
use text_core::Sequence;

impl<S: Backend> Desk<S> {
    /// What `show` and `history` answer a caller of the request with this number, and the row of
    /// its queue, by one look at the request; or the refusal of both. The moment is in minutes
    /// since 1970-01-01 00:00 UTC.
    ///
    /// `Unavailable` may come in place of any answer, where memory or the store refused. The tables
    /// stay as they are, whatever rows they have.
    pub fn dossier(
        &mut self,
        alloc: Global,
        at: u32,
        caller: &str,
        id: u32,
    ) -> Result<Dossier, Refusal>
        ensures told { DossierOn (settings_of S.Store self.old) at caller.now id result
            (tables_of S.Store self.old) (tables_of S.Store self.new) }
        ensures kept { LeavesTables (tables_of S.Store self.old) (tables_of S.Store self.new) }
        ensures same { settings_of S.Store self.new ≡ settings_of S.Store self.old }
    {
        let show = Command::Show { id };
        let call = Call {
            settings: &self.settings,
            at,
            caller,
        };
        ask(alloc, &mut self.store, call, id, &show)
    }
}

/// The dossier, by the command that shows the request. What every desk refuses costs no look.
#[tactic(auto, using(store_tables::proofs::Spared::unread))]
fn ask<S: Backend>(
    alloc: Global,
    store: &mut Store<S>,
    call: Call<'_>,
    id: u32,
    show: &Command,
) -> Result<Dossier, Refusal>
    requires { show.now ≡ Command.Show id }
    ensures told { DossierOn call.entry.settings.now call.entry.at call.entry.caller.now id result
        (state_of S.Store store.old) (state_of S.Store store.new) }
    ensures kept { LeavesTables (state_of S.Store store.old) (state_of S.Store store.new) }
{
    match refusal_without_facts(call.settings, call.at, call.caller, show) {
        Some(refusal) => Err(refusal),
        None => look(alloc, store, call, id, show),
    }
}

/// The dossier, by what the command sees of the desk.
fn look<S: Backend>(
    alloc: Global,
    store: &mut Store<S>,
    call: Call<'_>,
    id: u32,
    show: &Command,
) -> Result<Dossier, Refusal>
    requires shows { show.now ≡ Command.Show id }
    requires free { refusal_beforehand call.settings.now call.at call.caller.now
        show.now ≡ None }
    ensures told { DossierOn call.entry.settings.now call.entry.at call.entry.caller.now id result
        (state_of S.Store store.old) (state_of S.Store store.new) }
    ensures kept { LeavesTables (state_of S.Store store.old) (state_of S.Store store.new) }
{
    match store.facts_for(alloc, show) {
        Ok(facts) => {
            let dossier = judged(alloc, store, call, id, show, &facts);
            drop(facts);
            dossier
        }
        Err(fault) => Err(fault.into()),
    }
}

/// The dossier, where the command isn't refused on these facts.
fn judged<S: Backend>(
    alloc: Global,
    store: &mut Store<S>,
    call: Call<'_>,
    id: u32,
    show: &Command,
    facts: &Facts,
) -> Result<Dossier, Refusal>
    requires shows { show.now ≡ Command.Show id }
    requires free { refusal_beforehand call.settings.now call.at call.caller.now
        show.now ≡ None }
    ensures told { DossierWhere (λ desk. facts.now ≡ facts_on_request desk id)
        call.entry.settings.now call.entry.at call.entry.caller.now id result
        (state_of S.Store store.old) (state_of S.Store store.new) }
    ensures kept { LeavesTables (state_of S.Store store.old) (state_of S.Store store.new) }
{
    match decide_on_facts(alloc, call.settings, call.at, call.caller, facts, show) {
        Ok(change) => {
            drop(change);
            put_together(alloc, store, call, facts)
        }
        Err(refusal) => Err(refusal),
    }
}

/// The dossier of the request of these facts.
fn put_together<S: Backend>(
    alloc: Global,
    store: &mut Store<S>,
    call: Call<'_>,
    facts: &Facts,
) -> Result<Dossier, Refusal>
    ensures told { (id : ℕ) → TellsDue call.entry.settings.now
        (λ desk dossier. facts.now ≡ facts_on_request desk id
        → IsTold call.entry.settings.now call.entry.at call.entry.caller.now id desk dossier)
        (state_of S.Store store.old) (state_of S.Store store.new) result }
    ensures kept { LeavesTables (state_of S.Store store.old) (state_of S.Store store.new) }
    ensures fault { IfErr result (λ refusal. refusal ≡ Refusal.Unavailable) }
{
    match shown(alloc, store, call, facts) {
        Ok(shown) => with_history(alloc, store, call, facts, shown),
        Err(refusal) => Err(refusal),
    }
}

/// The dossier of a request that is shown so.
fn with_history<S: Backend>(
    alloc: Global,
    store: &mut Store<S>,
    call: Call<'_>,
    facts: &Facts,
    shown: Shown,
) -> Result<Dossier, Refusal>
    ensures told { (id : ℕ) → Tells (λ desk dossier. facts.now ≡ facts_on_request desk id
        → Answer.Shown shown ≡ answer_of call.entry.settings.now call.entry.at call.entry.caller.now
        (Command.Show id) desk
        → IsTold call.entry.settings.now call.entry.at call.entry.caller.now id desk dossier)
        (state_of S.Store store.old) (state_of S.Store store.new) result }
    ensures kept { LeavesTables (state_of S.Store store.old) (state_of S.Store store.new) }
    ensures fault { IfErr result (λ refusal. refusal ≡ Refusal.Unavailable) }
{
    match told(alloc, store, call, facts) {
        Ok(entries) => with_queue(shown, entries, &facts.queue),
        Err(refusal) => {
            drop(shown);
            Err(refusal)
        }
    }
}

/// What `show` answers of the request of these facts.
fn shown<S: Backend>(
    alloc: Global,
    store: &mut Store<S>,
    call: Call<'_>,
    facts: &Facts,
) -> Result<Shown, Refusal>
    ensures told { (id : ℕ) → Tells (λ desk shown. facts.now ≡ facts_on_request desk id
        → Answer.Shown shown ≡ answer_of call.entry.settings.now call.entry.at call.entry.caller.now
        (Command.Show id) desk)
        (state_of S.Store store.old) (state_of S.Store store.new) result }
    ensures kept { LeavesTables (state_of S.Store store.old) (state_of S.Store store.new) }
    ensures fault { IfErr result (λ refusal. refusal ≡ Refusal.Unavailable) }
{
    match show(alloc, store, call, facts) {
        Ok(answer) => shown_in(answer),
        Err(refusal) => Err(refusal),
    }
}

/// What `history` answers of the request of these facts.
fn told<S: Backend>(
    alloc: Global,
    store: &mut Store<S>,
    call: Call<'_>,
    facts: &Facts,
) -> Result<Sequence<Entry>, Refusal>
    ensures told { (id : ℕ) → Tells (λ desk entries. facts.now ≡ facts_on_request desk id
        → Answer.History entries ≡ answer_of call.entry.settings.now call.entry.at call.entry.caller.now
        (Command.History id) desk)
        (state_of S.Store store.old) (state_of S.Store store.new) result }
    ensures kept { LeavesTables (state_of S.Store store.old) (state_of S.Store store.new) }
    ensures fault { IfErr result (λ refusal. refusal ≡ Refusal.Unavailable) }
{
    match history(alloc, store, call, facts) {
        Ok(answer) => entries_in(answer),
        Err(refusal) => Err(refusal),
    }
}

/// The dossier of these parts; `Unavailable` where there is no queue, or no memory for it.
fn with_queue(
    shown: Shown,
    entries: Sequence<Entry>,
    queue: &Option<QueueRow>,
) -> Result<Dossier, Refusal>
    ensures shown { IfOk result (λ dossier. dossier.shown ≡ shown) }
    ensures entries { IfOk result (λ dossier. dossier.entries ≡ entries) }
    ensures queue { IfOk result (λ dossier. queue.now ≡ Some dossier.queue) }
    ensures fault { IfErr result (λ refusal. refusal ≡ Refusal.Unavailable) }
{
    match queue {
        Some(queue) => {
            let queue = copied(queue)?;
            Ok(Dossier {
                shown,
                entries,
                queue,
            })
        }
        None => Err(Refusal::Unavailable),
    }
}

/// A copy of a queue's row.
fn copied(queue: &QueueRow) -> Result<QueueRow, AllocError>
    ensures { IfOk result (λ copy. copy ≡ queue.now) }
{
    let name = queue.name.clone()?;
    let lifecycle = queue.lifecycle.clone()?;
    let level = queue.level.clone()?;
    Ok(QueueRow {
        name,
        lifecycle,
        level,
    })
}

/// The request that an answer shows; `Unavailable` where it shows none.
fn shown_in(answer: Answer) -> Result<Shown, Refusal>
    ensures ok { IfOk result (λ shown. answer ≡ Answer.Shown shown) }
    ensures fault { IfErr result (λ refusal. refusal ≡ Refusal.Unavailable) }
{
    match answer {
        Answer::Shown(shown) => Ok(shown),
        _ => Err(Refusal::Unavailable),
    }
}

/// The entries that an answer tells; `Unavailable` where it tells none.
fn entries_in(answer: Answer) -> Result<Sequence<Entry>, Refusal>
    ensures ok { IfOk result (λ entries. answer ≡ Answer.History entries) }
    ensures fault { IfErr result (λ refusal. refusal ≡ Refusal.Unavailable) }
{
    match answer {
        Answer::History(entries) => Ok(entries),
        _ => Err(Refusal::Unavailable),
    }
}
