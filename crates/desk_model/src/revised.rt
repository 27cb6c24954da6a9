//! A request with one thing about it changed.

ghost use Rattle.std.specs.Prelude.{◌≡◌, IfOk};
ghost use Rattle.std.specs.Option.{option_map};
ghost use Rattle.desk_model.specs.Change as change;
ghost use Rattle.desk_model.specs.Commands.Reply as reply;

use crate::lifecycles::opens_anew;
use crate::rows::{RequestRow, Turn};
use hours_core::Minute;
use lifecycle_core::Lifecycle;
use std::alloc::{AllocError, Global};
use text_core::Text;

/// The rows that a request gets in place of its own, where there is memory.
impl RequestRow {
    /// The row after a move at a moment. A move out of the inactive statuses opens the request
    /// anew.
    pub fn in_status(
        &self,
        alloc: Global,
        lifecycle: Option<&Lifecycle>,
        at: Minute,
        status: &str,
    ) -> Result<RequestRow, AllocError>
        ensures { IfOk result (λ moved. moved ≡ change.row_in_status
            (option_map (λ l. l.now) lifecycle.entry) at status.now self.now) }
    {
        let to = Text::new(alloc, status)?;
        let mut moved = self.with(to, self.owner.clone()?, self.level.clone()?)?;
        if opens_anew(lifecycle, self.status.as_str(), status) {
            moved.opened = at;
            moved.since = at;
        }
        Ok(moved)
    }

    /// The row after the turn has passed at a moment: to the desk, where a requestor has replied,
    /// and else to the requestor. Where it is the desk's turn already, it stays so since then.
    pub fn turned(self, is_requestor: bool, at: Minute) -> RequestRow
        ensures { result ≡ reply.turned is_requestor at self }
    {
        let mut turned = self;
        if is_requestor {
            if let Turn::Requestor = turned.turn {
                turned.turn = Turn::Desk;
                turned.since = at;
            }
        } else {
            turned.turn = Turn::Requestor;
            turned.since = at;
        }
        turned
    }

    /// The row with this owner, or with none.
    pub fn with_owner(&self, alloc: Global, owner: Option<&str>) -> Result<RequestRow, AllocError>
        ensures { IfOk result (λ owned. owned
            ≡ change.with_owner (option_map (λ o. o.now) owner.entry) self.now) }
    {
        let owner = match owner {
            Some(owner) => Some(Text::new(alloc, owner)?),
            None => None,
        };
        self.with(self.status.clone()?, owner, self.level.clone()?)
    }

    /// The row with this level, or with none.
    pub fn with_level(&self, level: &Option<Text>) -> Result<RequestRow, AllocError>
        ensures { IfOk result (λ levelled. levelled ≡ change.with_level level.now self.now) }
    {
        self.with(self.status.clone()?, self.owner.clone()?, level.clone()?)
    }
}
