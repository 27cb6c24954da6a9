//! Replying on a request, which may open it again.

ghost use Rattle.std.specs.Prelude.{◌≡◌, ◌+◌, ◌^◌, ◌<◌, IfOk, OnOk, unwrap_or};
ghost use Rattle.std.specs.Option.{option_map};
ghost use Rattle.desk_model.specs.Change.{row_in_status};
ghost use Rattle.desk_model.specs.Commands.Reply as reply;
ghost use Rattle.desk_model.specs.Plan.{Stays};
ghost use Rattle.desk_core.specs.DecisionContext.{call_of, DecidesOn, PassesOn};

use crate::decision::DecisionContext;
use desk_model::lifecycles::{lifecycle_of, reply_target};
use desk_model::{Change, Entry, EntryKind, Refusal, RequestRow, SeenRequest};
use lifecycle_core::Lifecycle;
use rights_core::right;
use std::alloc::AllocError;
use text_core::{Sequence, Text};

impl<'c> DecisionContext<'c> {
    /// Replies to the request: the reply may open it again, and the turn passes.
    pub(super) fn reply(&self, text: &Text) -> Result<Change, Refusal>
        ensures { DecidesOn result Stays reply.conditions (reply.change text.now) self.now }
    {
        let request = self.shown()?;
        let lifecycle = lifecycle_of(self.settings, &self.facts.queue);
        let is_requestor = request.requestors.contains(self.caller);
        let reopened = reply_target(lifecycle, is_requestor, request.row.status.as_str());
        self.ask_to_reply(request, reopened)?;
        let entries = self.entries_of_reply(request, text, reopened)?;
        let row = self.replied_row(request, lifecycle, is_requestor, reopened)?;
        Ok(Change::revising(self.alloc, row, entries))
    }

    /// Asks what a reply asks that moves the request to this status, if to any.
    #[tactic(auto, unfolding(rights_core::specs::Right::reply_to_ticket))]
    fn ask_to_reply(&self, request: &SeenRequest, reopened: Option<&str>) -> Result<(), Refusal>
        ensures asks { option_map (λ s. s.now) reopened.entry
            ≡ reply.move_of (call_of self.now) self.now.facts.now request.now
            → PassesOn result reply.conditions self.now request.now }
        ensures fits { OnOk result (request.now.entry_count
            + reply.entries_of_move (option_map (λ s. s.now) reopened.entry) < 2 ^ 32) }
    {
        self.ask(right::REPLY_TO_TICKET, request)?;
        self.ask_for_room(request, entries_of_move(reopened))
    }

    /// The row after a reply that moves the request to this status, if to any.
    fn replied_row(
        &self,
        request: &SeenRequest,
        lifecycle: Option<&Lifecycle>,
        is_requestor: bool,
        reopened: Option<&str>,
    ) -> Result<RequestRow, AllocError>
        ensures { IfOk result (λ row. row ≡ reply.turned is_requestor self.now.moment
            (row_in_status (option_map (λ l. l.now) lifecycle.entry) self.now.moment
            (unwrap_or (option_map (λ s. s.now) reopened.entry) request.now.row.status)
            request.now.row)) }
    {
        let status = reopened.unwrap_or(request.row.status.as_str());
        let alloc = self.alloc;
        let moved = request
            .row
            .in_status(alloc, lifecycle, self.moment, status)?;
        Ok(moved.turned(is_requestor, self.moment))
    }

    /// The entry of the reply, and that of the move.
    fn entries_of_reply(
        &self,
        request: &SeenRequest,
        text: &Text,
        reopened: Option<&str>,
    ) -> Result<Sequence<Entry>, AllocError>
        requires { request.now.entry_count
            + reply.entries_of_move (option_map (λ s. s.now) reopened) < 2 ^ 32 }
        ensures { IfOk result (λ entries. entries ≡ reply.entries_of text.now (call_of self.now)
            request.now (option_map (λ s. s.now) reopened.entry)) }
    {
        match reopened {
            Some(status) => {
                let reply = self.entry(request, 1, EntryKind::Reply, "", text.as_str())?;
                let moving = self.moving(request, 2, status)?;
                Ok(Sequence::from(vec![in self.alloc; reply, moving]?))
            }
            None => self.one_entry(request, EntryKind::Reply, "", text.as_str()),
        }
    }
}

/// How many entries a reply appends.
fn entries_of_move(reopened: Option<&str>) -> u32
    ensures { result ≡ reply.entries_of_move (option_map (λ s. s.now) reopened.entry) }
{
    match reopened {
        Some(_) => 2,
        None => 1,
    }
}
