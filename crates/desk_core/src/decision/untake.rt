//! Owning a request no longer.

ghost use Rattle.std.specs.Prelude.{◌+◌, ◌^◌, ◌<◌, OnOk};
ghost use Rattle.desk_model.specs.Commands.Untake as untake;
ghost use Rattle.desk_model.specs.Plan.{Stays};
ghost use Rattle.desk_core.specs.DecisionContext.{DecidesOn, PassesOn};

use crate::decision::DecisionContext;
use desk_model::{Change, Refusal, SeenRequest};

impl DecisionContext<'_> {
    /// Leaves a request that the caller owns without an owner.
    pub(super) fn untake(&self) -> Result<Change, Refusal>
        ensures { DecidesOn result Stays untake.conditions untake.change self.now }
    {
        let request = self.shown()?;
        self.ask_to_untake(request)?;
        Ok(self.giving_owner(None, request)?)
    }

    fn ask_to_untake(&self, request: &SeenRequest) -> Result<(), Refusal>
        ensures asks { PassesOn result untake.conditions self.now request.now }
        ensures fits { OnOk result (request.now.entry_count + 1 < 2 ^ 32) }
    {
        if request.row.owner.is_none() {
            return Err(Refusal::NotOwned);
        }
        if !request.is_owned_by(self.caller) {
            return Err(Refusal::NotOwner);
        }
        self.ask_for_room(request, 1)
    }
}
