//! Putting a person into a role.

ghost use Rattle.std.specs.Prelude.{◌≡◌, ◌+◌, ◌^◌, ◌<◌, [], ◌∷◌, IfOk, OnOk};
ghost use Rattle.desk_model.specs.Commands.Watch as watch;
ghost use Rattle.desk_model.specs.Watchers as watchers;
ghost use Rattle.desk_model.specs.Plan.{Nothing};
ghost use Rattle.desk_core.specs.DecisionContext.{call_of, DecidesOn, PassesOn};

use crate::decision::DecisionContext;
use desk_model::{Change, EntryKind, Refusal, SeenRequest, WatchRole, Watcher};
use rights_core::right;
use std::alloc::{AllocError, Global};
use text_core::{Sequence, Text, Texts};

impl DecisionContext<'_> {
    /// Puts a person into a role on the request.
    pub(super) fn watch(&self, role: WatchRole, person: &Text) -> Result<Change, Refusal>
        ensures { DecidesOn result Nothing
            (watch.conditions role person.now) (watch.change role person.now) self.now }
    {
        let request = self.shown()?;
        self.ask_to_watch(request, role, person)?;
        let entries = self.one_entry(request, EntryKind::Watch, role_word(role), person.as_str())?;
        let put = one_watcher(self.alloc, request, role, person)?;
        Ok(Change::putting(self.alloc, put, entries))
    }

    #[tactic(auto, unfolding(rights_core::specs::Right::modify_ticket))]
    fn ask_to_watch(
        &self,
        request: &SeenRequest,
        role: WatchRole,
        person: &Text,
    ) -> Result<(), Refusal>
        ensures asks { PassesOn result (watch.conditions role person.now) self.now request.now }
        ensures fits { OnOk result (request.now.entry_count + 1 < 2 ^ 32) }
    {
        if !self.settings.people().knows(person.as_str()) {
            return Err(Refusal::UnknownName);
        }
        if !self.may_set_role(request, role, person) {
            return Err(self.denied(right::MODIFY_TICKET));
        }
        if persons_in(role, request).contains(person.as_str()) {
            return Err(Refusal::NoChange);
        }
        self.ask_for_room(request, 1)
    }

    /// Whether the caller may modify the request, or names himself and may watch it.
    #[tactic(auto, unfolding(rights_core::specs::Right::modify_ticket))]
    pub(super) fn may_set_role(&self, request: &SeenRequest, role: WatchRole, person: &Text) -> bool
        ensures { result ≡ watch.may_set_role role person.now (call_of self.now) request.now }
    {
        self.holds(self.caller, right::MODIFY_TICKET, request)
            || (person.as_str() == self.caller
                && self.holds(self.caller, right_to_watch(role), request))
    }
}

/// The person in the role on the request, alone.
pub(super) fn one_watcher(
    alloc: Global,
    request: &SeenRequest,
    role: WatchRole,
    person: &Text,
) -> Result<Sequence<Watcher>, AllocError>
    ensures { IfOk result (λ alone. alone
        ≡ watchers.watcher request.now.row.id role person.now ∷ []) }
{
    let watcher = Watcher {
        id: request.row.id,
        role,
        person: person.clone()?,
    };
    Ok(Sequence::from(vec![in alloc; watcher]?))
}

pub(super) fn persons_in(role: WatchRole, request: &SeenRequest) -> &Texts
    ensures { result.now ≡ watch.persons_in role request.now }
{
    match role {
        WatchRole::Requestor => &request.requestors,
        WatchRole::Cc => &request.cc,
        WatchRole::AdminCc => &request.admin_cc,
    }
}

/// The right to put oneself into a role.
fn right_to_watch(role: WatchRole) -> &'static str
    ensures { result.now ≡ watch.right_to_watch role }
{
    match role {
        WatchRole::Requestor => right::WATCH,
        WatchRole::Cc => right::WATCH,
        WatchRole::AdminCc => right::WATCH_AS_ADMIN_CC,
    }
}

pub(super) fn role_word(role: WatchRole) -> &'static str
    ensures { result.now ≡ watch.role_word role }
{
    match role {
        WatchRole::Requestor => "requestor",
        WatchRole::Cc => "cc",
        WatchRole::AdminCc => "admincc",
    }
}
