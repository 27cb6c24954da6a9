//! What commands change.

ghost use Rattle.std.specs.Prelude.{◌≡◌, option_and_then, IfOk};
ghost use Rattle.desk_model.specs.Change as change;
ghost use Rattle.desk_model.specs.Due as due;
ghost use Rattle.desk_model.specs.Dated.{dated, due_in_queue, either_row, stays_put};
ghost use Rattle.desk_model.specs.Plan.{answer_of_change};

use crate::answer::Answer;
use crate::due::due_of;
use crate::facts::Facts;
use crate::rows::{Entry, LinkRow, QueueRow, RequestRow, Watcher};
use crate::stays::stays_after;
use hours_core::{Minute, Stay};
use settings_core::Settings;
use std::alloc::{AllocError, Global};
use text_core::Sequence;

/// What an accepted command does to the desk, in this order. A reading command does nothing.
#[derive(Drop)]
pub struct Change {
    /// A queue that is opened.
    pub queue: Option<QueueRow>,
    /// A request that is filed.
    pub filed: Option<RequestRow>,
    /// The row that a request gets in place of its own.
    pub row: Option<RequestRow>,
    /// When the request that is filed, or that gets another row, is due.
    pub due: Option<Minute>,
    /// The stays of that request after the change, in order; none where the change puts no row.
    pub stays: Sequence<Stay>,
    /// The persons that are put into a role.
    pub put: Sequence<Watcher>,
    /// The persons that are taken out of a role.
    pub taken: Sequence<Watcher>,
    /// A link that is put.
    pub linked: Option<LinkRow>,
    /// A link that is taken away.
    pub unlinked: Option<LinkRow>,
    /// The entries that go to the end of a request's history, in order.
    pub entries: Sequence<Entry>,
}

impl Change {
    /// What a command that makes this change answers: the number of the request that it files, or
    /// that it is done.
    pub fn answer(&self) -> Answer
        ensures { result ≡ answer_of_change self.now }
    {
        match &self.filed {
            Some(row) => Answer::Created(row.id),
            None => Answer::Done,
        }
    }

    /// The change with the stays that the request that it files, or that gets another row, has after
    /// it, and with the moment at which that request is due. Nothing else of it changes.
    pub fn dated(
        self,
        alloc: Global,
        settings: &Settings,
        facts: &Facts,
    ) -> Result<Change, AllocError>
        ensures { IfOk result (λ change. change ≡ dated settings.now facts.now self) }
    {
        match self.stays_put(alloc, &facts.stays) {
            Ok(stays) => {
                let due = self.due_in(settings, &facts.queue, stays.as_slice());
                Ok(self.with(due, stays))
            }
            Err(error) => {
                drop(self);
                Err(error)
            }
        }
    }

    /// The change with this moment and these stays.
    fn with(self, due: Option<Minute>, stays: Sequence<Stay>) -> Change
        ensures { result ≡ record self { due = due; stays = stays } }
    {
        Change { due, stays, ..self }
    }

    /// The stays of the request whose row the change puts, where these are those before it; none
    /// where it puts no row.
    fn stays_put(&self, alloc: Global, stays: &Sequence<Stay>) -> Result<Sequence<Stay>, AllocError>
        ensures { IfOk result (λ put. put ≡ stays_put stays.now self.now.entries
            (either_row self.now.filed self.now.row)) }
    {
        if self.filed.is_none() && self.row.is_none() {
            return Ok(Sequence::from(Vec::new(alloc)));
        }
        let so_far = stays.clone()?.into_vec();
        let after = stays_after(so_far, self.entries.as_slice())?;
        Ok(Sequence::from(after))
    }

    /// When the request that is filed, or that gets another row, is due in this queue, in minutes
    /// since 1970-01-01 00:00 UTC; none where the change puts no row.
    fn due_in(
        &self,
        settings: &Settings,
        queue: &Option<QueueRow>,
        stays: &[Stay],
    ) -> Option<Minute>
        ensures { result ≡ due_in_queue settings.now queue.now stays.now
            (either_row self.now.filed self.now.row) }
    {
        match queue {
            Some(queue) => match &self.filed {
                Some(row) => due_of(settings, queue, row, stays),
                None => self.due_of_row(settings, queue, stays),
            },
            None => None,
        }
    }

    /// When the request that gets another row is due in this queue.
    fn due_of_row(&self, settings: &Settings, queue: &QueueRow, stays: &[Stay]) -> Option<Minute>
        ensures { result
            ≡ option_and_then (due.due_of settings.now queue.now stays.now) self.now.row }
    {
        match &self.row {
            Some(row) => due_of(settings, queue, row, stays),
            None => None,
        }
    }

    /// Nothing.
    pub fn no_change(alloc: Global) -> Change
        ensures { result ≡ change.no_change }
    {
        Change {
            queue: None,
            filed: None,
            row: None,
            due: None,
            stays: Sequence::from(Vec::new(alloc)),
            put: Sequence::from(Vec::new(alloc)),
            taken: Sequence::from(Vec::new(alloc)),
            linked: None,
            unlinked: None,
            entries: Sequence::from(Vec::new(alloc)),
        }
    }

    /// A queue is opened.
    pub fn opening(alloc: Global, queue: QueueRow) -> Change
        ensures { result ≡ change.opening queue }
    {
        Change {
            queue: Some(queue),
            ..Change::no_change(alloc)
        }
    }

    /// A request's history gets entries.
    pub fn noting(alloc: Global, entries: Sequence<Entry>) -> Change
        ensures { result ≡ change.noting entries }
    {
        Change {
            entries,
            ..Change::no_change(alloc)
        }
    }

    /// A request gets another row.
    pub fn revising(alloc: Global, row: RequestRow, entries: Sequence<Entry>) -> Change
        ensures { result ≡ change.revising row entries }
    {
        Change {
            row: Some(row),
            ..Change::noting(alloc, entries)
        }
    }

    /// Persons are put into roles on a request.
    pub fn putting(alloc: Global, put: Sequence<Watcher>, entries: Sequence<Entry>) -> Change
        ensures { result ≡ change.putting put entries }
    {
        Change {
            put,
            ..Change::noting(alloc, entries)
        }
    }

    /// A request is linked with another one.
    pub fn linking(alloc: Global, link: LinkRow, entries: Sequence<Entry>) -> Change
        ensures { result ≡ change.linking link entries }
    {
        Change {
            linked: Some(link),
            ..Change::noting(alloc, entries)
        }
    }

    /// Persons are taken out of roles on a request.
    pub fn taking(alloc: Global, taken: Sequence<Watcher>, entries: Sequence<Entry>) -> Change
        ensures { result ≡ change.taking taken entries }
    {
        Change {
            taken,
            ..Change::noting(alloc, entries)
        }
    }

    /// The link of a request with another one goes.
    pub fn unlinking(alloc: Global, link: LinkRow, entries: Sequence<Entry>) -> Change
        ensures { result ≡ change.unlinking link entries }
    {
        Change {
            unlinked: Some(link),
            ..Change::noting(alloc, entries)
        }
    }

    /// A request is filed, with the persons in its roles.
    pub fn filing(
        alloc: Global,
        row: RequestRow,
        put: Sequence<Watcher>,
        entries: Sequence<Entry>,
    ) -> Change
        ensures { result ≡ change.filing row put entries }
    {
        Change {
            filed: Some(row),
            ..Change::putting(alloc, put, entries)
        }
    }
}
