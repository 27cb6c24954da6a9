//! Commenting on a request.

ghost use Rattle.std.specs.Prelude.{◌+◌, ◌^◌, ◌<◌, OnOk};
ghost use Rattle.desk_model.specs.Commands.Comment as comment;
ghost use Rattle.desk_model.specs.Plan.{Nothing};
ghost use Rattle.desk_core.specs.DecisionContext.{DecidesOn, PassesOn};

use crate::decision::DecisionContext;
use desk_model::{Change, EntryKind, Refusal, SeenRequest};
use rights_core::right;
use text_core::Text;

impl DecisionContext<'_> {
    /// Comments on the request.
    pub(super) fn comment(&self, text: &Text) -> Result<Change, Refusal>
        ensures { DecidesOn result Nothing comment.conditions (comment.change text.now) self.now }
    {
        let request = self.shown()?;
        self.ask_to_comment(request)?;
        let entries = self.one_entry(request, EntryKind::Comment, "", text.as_str())?;
        Ok(Change::noting(self.alloc, entries))
    }

    #[tactic(auto, unfolding(rights_core::specs::Right::comment_on_ticket))]
    fn ask_to_comment(&self, request: &SeenRequest) -> Result<(), Refusal>
        ensures asks { PassesOn result comment.conditions self.now request.now }
        ensures fits { OnOk result (request.now.entry_count + 1 < 2 ^ 32) }
    {
        self.ask(right::COMMENT_ON_TICKET, request)?;
        self.ask_for_room(request, 1)
    }
}
