//! Taking a person out of a role.

ghost use Rattle.std.specs.Prelude.{◌+◌, ◌^◌, ◌<◌, OnOk};
ghost use Rattle.desk_model.specs.Commands.Unwatch as unwatch;
ghost use Rattle.desk_model.specs.Plan.{Nothing};
ghost use Rattle.desk_core.specs.DecisionContext.{DecidesOn, PassesOn};

use crate::decision::DecisionContext;
use crate::decision::watch::{one_watcher, persons_in, role_word};
use desk_model::{Change, EntryKind, Refusal, SeenRequest, WatchRole};
use rights_core::right;
use text_core::Text;

impl DecisionContext<'_> {
    /// Takes a person out of a role on the request.
    pub(super) fn unwatch(&self, role: WatchRole, person: &Text) -> Result<Change, Refusal>
        ensures { DecidesOn result Nothing
            (unwatch.conditions role person.now) (unwatch.change role person.now) self.now }
    {
        let request = self.shown()?;
        self.ask_to_unwatch(request, role, person)?;
        let entries = self.one_entry(
            request,
            EntryKind::Unwatch,
            role_word(role),
            person.as_str(),
        )?;
        let taken = one_watcher(self.alloc, request, role, person)?;
        Ok(Change::taking(self.alloc, taken, entries))
    }

    #[tactic(auto, unfolding(rights_core::specs::Right::modify_ticket))]
    fn ask_to_unwatch(
        &self,
        request: &SeenRequest,
        role: WatchRole,
        person: &Text,
    ) -> Result<(), Refusal>
        ensures asks { PassesOn result (unwatch.conditions role person.now) self.now request.now }
        ensures fits { OnOk result (request.now.entry_count + 1 < 2 ^ 32) }
    {
        if !self.settings.people().knows(person.as_str()) {
            return Err(Refusal::UnknownName);
        }
        if !self.may_set_role(request, role, person) {
            return Err(self.denied(right::MODIFY_TICKET));
        }
        if !persons_in(role, request).contains(person.as_str()) {
            return Err(Refusal::NoChange);
        }
        self.ask_for_room(request, 1)
    }
}
