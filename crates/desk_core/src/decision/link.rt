//! Linking two requests.

ghost use Rattle.std.specs.Prelude.{◌≡◌, ◌+◌, ◌^◌, ◌<◌, IfOk, OnOk, decimal};
ghost use Rattle.desk_model.specs.Commands.Link as link;
ghost use Rattle.desk_model.specs.Plan.{Another};
ghost use Rattle.desk_core.specs.DecisionContext.{DecidesOn, PassesOn};

use crate::decision::DecisionContext;
use desk_model::{Change, EntryKind, LinkKind, LinkRow, Refusal, SeenRequest};
use rights_core::right;
use std::alloc::{AllocError, Global};
use text_core::Text;

impl DecisionContext<'_> {
    /// Links the request with another one.
    pub(super) fn link(&self, kind: LinkKind, other: u32) -> Result<Change, Refusal>
        ensures { DecidesOn result (Another kind other)
            (link.conditions other) (link.change kind other) self.now }
    {
        let request = self.both_shown()?;
        self.ask_to_link(request, other)?;
        let number = in_digits(self.alloc, other)?;
        let entries = self.one_entry(request, EntryKind::Link, kind_word(kind), number.as_str())?;
        let link = LinkRow {
            source: request.row.id,
            kind,
            target: other,
        };
        Ok(Change::linking(self.alloc, link, entries))
    }

    #[tactic(auto, unfolding(rights_core::specs::Right::modify_ticket))]
    fn ask_to_link(&self, request: &SeenRequest, other: u32) -> Result<(), Refusal>
        ensures asks { PassesOn result (link.conditions other) self.now request.now }
        ensures fits { OnOk result (request.now.entry_count + 1 < 2 ^ 32) }
    {
        self.ask(right::MODIFY_TICKET, request)?;
        if self.facts.is_linked {
            return Err(Refusal::NoChange);
        }
        if request.row.id == other {
            return Err(Refusal::SelfLink);
        }
        self.ask_for_room(request, 1)
    }
}

pub(super) fn kind_word(kind: LinkKind) -> &'static str
    ensures { result.now ≡ link.kind_word kind }
{
    match kind {
        LinkKind::DependsOn => "DependsOn",
        LinkKind::MemberOf => "MemberOf",
        LinkKind::RefersTo => "RefersTo",
    }
}

/// The number in digits.
pub(super) fn in_digits(alloc: Global, number: u32) -> Result<Text, AllocError>
    ensures { IfOk result (λ text. text ≡ decimal number) }
{
    Ok(Text::from(format!(in alloc; "{number}")?))
}
