//! Owning a request in place of another person.

ghost use Rattle.std.specs.Prelude.{◌+◌, ◌^◌, ◌<◌, OnOk};
ghost use Rattle.desk_model.specs.Commands.Steal as steal;
ghost use Rattle.desk_model.specs.Plan.{Stays};
ghost use Rattle.desk_core.specs.DecisionContext.{DecidesOn, PassesOn};

use crate::decision::DecisionContext;
use desk_model::{Change, Refusal, SeenRequest};
use rights_core::right;

impl DecisionContext<'_> {
    /// Makes the caller the owner of a request that another person owns.
    pub(super) fn steal(&self) -> Result<Change, Refusal>
        ensures { DecidesOn result Stays steal.conditions steal.change self.now }
    {
        let request = self.shown()?;
        self.ask_to_steal(request)?;
        Ok(self.giving_owner(Some(self.caller), request)?)
    }

    #[tactic(auto, unfolding(rights_core::specs::Right::steal_ticket))]
    fn ask_to_steal(&self, request: &SeenRequest) -> Result<(), Refusal>
        ensures asks { PassesOn result steal.conditions self.now request.now }
        ensures fits { OnOk result (request.now.entry_count + 1 < 2 ^ 32) }
    {
        self.ask(right::STEAL_TICKET, request)?;
        self.ask_to_own(self.caller, request)?;
        if request.is_owned_by(self.caller) {
            return Err(Refusal::NoChange);
        }
        if request.row.owner.is_none() {
            return Err(Refusal::NotOwned);
        }
        self.ask_for_room(request, 1)
    }
}
