//! Taking a link away.

ghost use Rattle.std.specs.Prelude.{◌+◌, ◌^◌, ◌<◌, OnOk};
ghost use Rattle.desk_model.specs.Commands.Unlink as unlink;
ghost use Rattle.desk_model.specs.Plan.{Another};
ghost use Rattle.desk_core.specs.DecisionContext.{DecidesOn, PassesOn};

use crate::decision::DecisionContext;
use crate::decision::link::{in_digits, kind_word};
use desk_model::{Change, EntryKind, LinkKind, LinkRow, Refusal, SeenRequest};
use rights_core::right;

impl DecisionContext<'_> {
    /// Takes away the link of the request with another one.
    pub(super) fn unlink(&self, kind: LinkKind, other: u32) -> Result<Change, Refusal>
        ensures { DecidesOn result (Another kind other)
            unlink.conditions (unlink.change kind other) self.now }
    {
        let request = self.both_shown()?;
        self.ask_to_unlink(request)?;
        let number = in_digits(self.alloc, other)?;
        let entries = self.one_entry(request, EntryKind::Unlink, kind_word(kind), number.as_str())?;
        let link = LinkRow {
            source: request.row.id,
            kind,
            target: other,
        };
        Ok(Change::unlinking(self.alloc, link, entries))
    }

    #[tactic(auto, unfolding(rights_core::specs::Right::modify_ticket))]
    fn ask_to_unlink(&self, request: &SeenRequest) -> Result<(), Refusal>
        ensures asks { PassesOn result unlink.conditions self.now request.now }
        ensures fits { OnOk result (request.now.entry_count + 1 < 2 ^ 32) }
    {
        self.ask(right::MODIFY_TICKET, request)?;
        if !self.facts.is_linked {
            return Err(Refusal::NoChange);
        }
        self.ask_for_room(request, 1)
    }
}
