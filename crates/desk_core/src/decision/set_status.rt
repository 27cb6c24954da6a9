//! Moving a request to a status.

ghost use Rattle.std.specs.Prelude.{◌≡◌, ◌+◌, ◌^◌, ◌<◌, true, IfOk, IfErr, OnOk};
ghost use Rattle.desk_model.specs.Commands.SetStatus as set_status;
ghost use Rattle.desk_model.specs.Entries as entries;
ghost use Rattle.desk_model.specs.Plan.{Dependencies};
ghost use Rattle.desk_core.specs.DecisionContext.{call_of, DecidesOn, PassesOn};

use crate::decision::DecisionContext;
use desk_model::lifecycles::{has_status, is_allowed, is_inactive, lifecycle_of, right_of};
use desk_model::{Change, Entry, EntryKind, Refusal, SeenRequest};
use std::alloc::AllocError;
use text_core::Text;

impl DecisionContext<'_> {
    /// Moves the request to another status.
    pub(super) fn set_status(&self, status: &Text) -> Result<Change, Refusal>
        ensures { DecidesOn result Dependencies
            (set_status.conditions status.now) (set_status.change status.now) self.now }
    {
        let request = self.shown()?;
        self.ask_to_move(request, status)?;
        let (from, to) = (request.row.status.as_str(), status.as_str());
        let entries = self.one_entry(request, EntryKind::Status, from, to)?;
        let lifecycle = lifecycle_of(self.settings, &self.facts.queue);
        let row = request
            .row
            .in_status(self.alloc, lifecycle, self.moment, to)?;
        Ok(Change::revising(self.alloc, row, entries))
    }

    fn ask_to_move(&self, request: &SeenRequest, status: &Text) -> Result<(), Refusal>
        ensures asks { PassesOn result (set_status.conditions status.now) self.now request.now }
        ensures fits { OnOk result (request.now.entry_count + 1 < 2 ^ 32) }
    {
        let lifecycle = lifecycle_of(self.settings, &self.facts.queue);
        let (from, to) = (request.row.status.as_str(), status.as_str());
        if !has_status(lifecycle, to) {
            return Err(Refusal::UnknownName);
        }
        self.ask(right_of(lifecycle, from, to), request)?;
        if request.row.status == *status {
            return Err(Refusal::NoChange);
        }
        if !is_allowed(lifecycle, from, to) {
            return Err(Refusal::NoTransition);
        }
        if is_inactive(lifecycle, to) && self.facts.has_open_dependency(self.settings) {
            return Err(Refusal::OpenDependency);
        }
        self.ask_for_room(request, 1)
    }

    /// The entry of a move.
    pub(super) fn moving(
        &self,
        request: &SeenRequest,
        number: u32,
        status: &str,
    ) -> Result<Entry, AllocError>
        requires { request.now.entry_count + number < 2 ^ 32 }
        ensures { IfOk result (λ entry.
            entry ≡ entries.moving (call_of self.now) request.now number status.now) }
    {
        let from = request.row.status.as_str();
        self.entry(request, number, EntryKind::Status, from, status)
    }
}
