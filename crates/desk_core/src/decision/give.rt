//! Giving a request to an owner.

ghost use Rattle.std.specs.Prelude.{◌≡◌, ◌+◌, ◌^◌, ◌<◌, OnOk};
ghost use Rattle.desk_model.specs.Commands.Give as give;
ghost use Rattle.desk_model.specs.Plan.{Stays};
ghost use Rattle.desk_core.specs.DecisionContext.{call_of, DecidesOn, PassesOn};

use crate::decision::DecisionContext;
use desk_model::{Change, Refusal, SeenRequest};
use rights_core::right;
use text_core::Text;

impl DecisionContext<'_> {
    /// Makes a person the owner of a request.
    pub(super) fn give(&self, person: &Text) -> Result<Change, Refusal>
        ensures { DecidesOn result Stays
            (give.conditions person.now) (give.change person.now) self.now }
    {
        let request = self.shown()?;
        self.ask_to_give(request, person)?;
        Ok(self.giving_owner(Some(person.as_str()), request)?)
    }

    #[tactic(auto, unfolding(rights_core::specs::Right::reassign_ticket))]
    fn ask_to_give(&self, request: &SeenRequest, person: &Text) -> Result<(), Refusal>
        ensures asks { PassesOn result (give.conditions person.now) self.now request.now }
        ensures fits { OnOk result (request.now.entry_count + 1 < 2 ^ 32) }
    {
        if !self.settings.people().knows(person.as_str()) {
            return Err(Refusal::UnknownName);
        }
        if !self.may_give(request) {
            return Err(self.denied(right::REASSIGN_TICKET));
        }
        self.ask_to_own(person.as_str(), request)?;
        if request.is_owned_by(person.as_str()) {
            return Err(Refusal::NoChange);
        }
        self.ask_for_room(request, 1)
    }

    /// Whether the caller owns the request, or may give away what others own.
    #[tactic(auto, unfolding(rights_core::specs::Right::reassign_ticket))]
    fn may_give(&self, request: &SeenRequest) -> bool
        ensures { result ≡ give.may_give (call_of self.now) request.now }
    {
        request.is_owned_by(self.caller) || self.holds(self.caller, right::REASSIGN_TICKET, request)
    }
}
