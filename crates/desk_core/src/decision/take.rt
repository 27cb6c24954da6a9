//! Owning a request that nobody owns.

ghost use Rattle.std.specs.Prelude.{◌≡◌, ◌+◌, ◌^◌, ◌<◌, IfOk, OnOk};
ghost use Rattle.std.specs.Option.{option_map};
ghost use Rattle.desk_model.specs.Commands.Take as take;
ghost use Rattle.desk_model.specs.Entries as entries;
ghost use Rattle.desk_model.specs.Plan.{Stays};
ghost use Rattle.desk_core.specs.DecisionContext.{call_of, DecidesOn, PassesOn};

use crate::decision::DecisionContext;
use desk_model::{Change, EntryKind, Refusal, SeenRequest};
use rights_core::right;
use std::alloc::AllocError;

impl DecisionContext<'_> {
    /// Makes the caller the owner of a request that nobody owns.
    pub(super) fn take(&self) -> Result<Change, Refusal>
        ensures { DecidesOn result Stays take.conditions take.change self.now }
    {
        let request = self.shown()?;
        self.ask_to_take(request)?;
        Ok(self.giving_owner(Some(self.caller), request)?)
    }

    #[tactic(auto, unfolding(rights_core::specs::Right::take_ticket))]
    fn ask_to_take(&self, request: &SeenRequest) -> Result<(), Refusal>
        ensures asks { PassesOn result take.conditions self.now request.now }
        ensures fits { OnOk result (request.now.entry_count + 1 < 2 ^ 32) }
    {
        self.ask(right::TAKE_TICKET, request)?;
        self.ask_to_own(self.caller, request)?;
        if request.is_owned_by(self.caller) {
            return Err(Refusal::NoChange);
        }
        if request.row.owner.is_some() {
            return Err(Refusal::Owned);
        }
        self.ask_for_room(request, 1)
    }

    /// The request with this owner, or with none.
    pub(super) fn giving_owner(
        &self,
        owner: Option<&str>,
        request: &SeenRequest,
    ) -> Result<Change, AllocError>
        requires { request.now.entry_count + 1 < 2 ^ 32 }
        ensures { IfOk result (λ change. change
            ≡ entries.giving_owner (option_map (λ o. o.now) owner.entry)
            (call_of self.now) request.now) }
    {
        let old = request.row.owner.as_ref().map(|o| o.as_str());
        let entries = self.one_entry(
            request,
            EntryKind::Owner,
            owner_word(old),
            owner_word(owner),
        )?;
        let row = request.row.with_owner(self.alloc, owner)?;
        Ok(Change::revising(self.alloc, row, entries))
    }
}

/// An owner in an entry.
fn owner_word(owner: Option<&str>) -> &str
    ensures { result.now ≡ entries.owner_word (option_map (λ o. o.now) owner.entry) }
{
    owner.unwrap_or("Nobody")
}
