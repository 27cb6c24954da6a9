//! Filing a request.

ghost use Rattle.std.specs.Prelude.{◌≡◌, map, IfOk, OnOk, ◌+◌, ◌^◌, ◌<◌, [], ◌∷◌};
ghost use Rattle.std.specs.List.{list_all};
ghost use Rattle.settings_core.specs.Settings.{knows};
ghost use Rattle.desk_model.specs.Commands.Create as create;
ghost use Rattle.desk_model.specs.Condition.{Passes};
ghost use Rattle.desk_core.specs.DecisionContext.{call_of, DecidesOnQueue};

use crate::decision::DecisionContext;
use desk_model::lifecycles::{first_status, has_given, is_creatable, lifecycle_of};
use desk_model::{
    Change, Entry, EntryKind, Refusal, RequestRow, Turn, WatchRole, Watcher, in_byte_order,
};
use rights_core::right;
use std::alloc::{AllocError, Global};
use text_core::{Sequence, Text, Texts};

impl DecisionContext<'_> {
    /// Files a request.
    pub(super) fn create(
        &self,
        queue: &Text,
        subject: &Text,
        status: &Option<Text>,
        requestors: &Texts,
    ) -> Result<Change, Refusal>
        ensures { DecidesOnQueue result
            (create.conditions queue.now status.now requestors.now)
            (create.change queue.now subject.now status.now requestors.now) self.now }
    {
        self.ask_to_create(queue, status, requestors)?;
        let lifecycle = lifecycle_of(self.settings, &self.facts.queue);
        let first = first_status(lifecycle, status);
        let id = self.facts.request_count + 1;
        let watchers = self.requestors_of(id, requestors)?;
        let entries = self.first_entries(id, first)?;
        let row = self.new_row(id, queue, subject, first)?;
        Ok(Change::filing(self.alloc, row, watchers, entries))
    }

    #[tactic(auto, unfolding(rights_core::specs::Right::create_ticket))]
    fn ask_to_create(
        &self,
        queue: &Text,
        status: &Option<Text>,
        requestors: &Texts,
    ) -> Result<(), Refusal>
        ensures asks { Passes result
            (create.conditions queue.now status.now requestors.now
            (call_of self.now) self.now.facts.now) }
        ensures fits { OnOk result (self.now.facts.now.request_count + 1 < 2 ^ 32) }
    {
        if self.facts.queue.is_none() {
            return Err(Refusal::NotFound);
        }
        let lifecycle = lifecycle_of(self.settings, &self.facts.queue);
        if !has_given(lifecycle, status) || !self.knows_all(requestors.as_slice()) {
            return Err(Refusal::UnknownName);
        }
        self.ask_on_queue(right::CREATE_TICKET, queue)?;
        if !is_creatable(lifecycle, first_status(lifecycle, status)) {
            return Err(Refusal::NoTransition);
        }
        if self.facts.is_full(self.settings) {
            return Err(Refusal::Full);
        }
        Ok(())
    }

    /// Whether all of these are persons of the settings.
    fn knows_all(&self, persons: &[Text]) -> bool
        ensures { result ≡ list_all (knows self.now.settings.now) persons.now }
    {
        persons
            .iter()
            .all(|p| self.settings.people().knows(p.as_str()))
    }

    /// The row of a new request.
    fn new_row(
        &self,
        id: u32,
        queue: &Text,
        subject: &Text,
        status: &str,
    ) -> Result<RequestRow, AllocError>
        ensures { IfOk result (λ row. row ≡ create.new_row id self.now.moment
            queue.now subject.now status.now self.now.facts.now.queue) }
    {
        let level = self.first_level()?;
        Ok(RequestRow {
            id,
            queue: queue.clone()?,
            subject: subject.clone()?,
            status: Text::new(self.alloc, status)?,
            owner: None,
            level,
            created: self.moment,
            opened: self.moment,
            turn: Turn::Desk,
            since: self.moment,
        })
    }

    /// The level that the queue's requests start with.
    fn first_level(&self) -> Result<Option<Text>, AllocError>
        ensures { IfOk result (λ level. level
            ≡ create.first_level self.now.facts.now.queue) }
    {
        match &self.facts.queue {
            Some(queue) => queue.level.clone(),
            None => Ok(None),
        }
    }

    /// The first entry of a request, alone.
    fn first_entries(&self, id: u32, status: &str) -> Result<Sequence<Entry>, AllocError>
        ensures { IfOk result (λ entries.
            entries ≡ create.first_entry id (call_of self.now) status.now ∷ []) }
    {
        let entry = Entry {
            id,
            number: 1,
            moment: self.moment,
            actor: Text::new(self.alloc, self.caller)?,
            kind: EntryKind::Create,
            head: Text::new(self.alloc, "")?,
            body: Text::new(self.alloc, status)?,
        };
        Ok(Sequence::from(vec![in self.alloc; entry]?))
    }

    /// The persons given as requestors, each once, or the caller where none is given.
    fn requestors_of(&self, id: u32, given: &Texts) -> Result<Sequence<Watcher>, AllocError>
        ensures { IfOk result (λ watchers.
            watchers ≡ create.requestors_of id (call_of self.now) given.now) }
    {
        let persons = if given.is_empty() {
            Texts::from(vec![in self.alloc; Text::new(self.alloc, self.caller)?]?)
        } else {
            in_byte_order(self.alloc, given.as_slice())?
        };
        as_requestors(self.alloc, id, persons)
    }
}

/// The persons as requestors of a request.
fn as_requestors(alloc: Global, id: u32, persons: Texts) -> Result<Sequence<Watcher>, AllocError>
    ensures { IfOk result (λ watchers. watchers ≡ map (create.requestor id) persons) }
{
    let mut watchers = Vec::with_capacity(alloc, persons.len())?;
    for person in persons.as_slice() {
        watchers.push(Watcher {
            id,
            role: WatchRole::Requestor,
            person: person.clone()?,
        })?;
    }
    Ok(Sequence::from(watchers))
}
