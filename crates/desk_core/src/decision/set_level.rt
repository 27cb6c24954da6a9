//! Giving a request another level, or none.

ghost use Rattle.std.specs.Prelude.{◌≡◌, ◌+◌, ◌^◌, ◌<◌, IfOk, OnOk, None};
ghost use Rattle.desk_model.specs.Commands.SetLevel as set_level;
ghost use Rattle.desk_model.specs.Plan.{Stays};
ghost use Rattle.desk_core.specs.DecisionContext.{DecidesOn, PassesOn};

use crate::beforehand::knows_level;
use crate::decision::DecisionContext;
use desk_model::{Change, EntryKind, Refusal, RequestRow, SeenRequest};
use rights_core::right;
use std::alloc::AllocError;
use text_core::Text;

impl DecisionContext<'_> {
    /// Gives the request another level, or none.
    pub(super) fn set_level(&self, level: &Option<Text>) -> Result<Change, Refusal>
        ensures { DecidesOn result Stays
            (set_level.conditions level.now) (set_level.change level.now) self.now }
    {
        let request = self.shown()?;
        self.ask_to_set_level(request, level)?;
        let old = level_word(&request.row.level);
        let entries = self.one_entry(request, EntryKind::Level, old, level_word(level))?;
        let row = request.row.with_level(level)?;
        Ok(Change::revising(self.alloc, row, entries))
    }

    #[tactic(auto, unfolding(rights_core::specs::Right::modify_ticket))]
    fn ask_to_set_level(&self, request: &SeenRequest, level: &Option<Text>) -> Result<(), Refusal>
        ensures asks { PassesOn result (set_level.conditions level.now) self.now request.now }
        ensures fits { OnOk result (request.now.entry_count + 1 < 2 ^ 32) }
    {
        if !knows_level(self.settings, level) {
            return Err(Refusal::UnknownName);
        }
        self.ask(right::MODIFY_TICKET, request)?;
        if is_same_level(&request.row.level, level) {
            return Err(Refusal::NoChange);
        }
        self.ask_for_room(request, 1)
    }
}

fn is_same_level(a: &Option<Text>, b: &Option<Text>) -> bool
    ensures { result ≡ set_level.is_same_level a.now b.now }
{
    match (a, b) {
        (Some(a), Some(b)) => *a == *b,
        (None, None) => true,
        _ => false,
    }
}

/// A level in an entry, or a dash for none.
fn level_word(level: &Option<Text>) -> &str
    ensures { result.now ≡ set_level.level_word level.now }
{
    match level {
        Some(level) => level.as_str(),
        None => "-",
    }
}
