//! A list of commands on the desk.
ghost use Rattle.std.specs.Prelude.{◌≡◌, IfOk, OnErr};
ghost use Rattle.service_core.specs.TableSteps.{RunsOn, asks_of};
ghost use Rattle.service_core.specs.Leaves.{LeavesDesk};
ghost use Rattle.service_core.specs.Seen.{settings_of, tables_of};

use crate::desk::Desk;
use desk_core::{Answer, Command, Refusal};
use std::alloc::{AllocError, Global};
use store_core::Backend;

impl<S: Backend> Desk<S> {
    /// Executes the commands in their order, each at its moment, in minutes since 1970-01-01 00:00
    /// UTC, and by its caller: what comes of each. One that is `Unavailable` changes nothing.
    ///
    /// Room for the answers is had before the first command: `AllocError` where it is refused, and
    /// nothing is done.
    pub fn execute_all(
        &mut self,
        alloc: Global,
        asks: &[(u32, String, Command)],
    ) -> Result<Vec<Result<Answer, Refusal>>, AllocError>
        ensures run { IfOk result (λ outcomes. RunsOn (settings_of S.Store self.old)
            (asks_of asks.now) outcomes.items
            (tables_of S.Store self.old) (tables_of S.Store self.new)) }
        ensures err { OnErr result (self.new ≡ self.old) }
        ensures left { LeavesDesk S.Store self.old self.new }
    {
        let mut outcomes = Vec::with_capacity(alloc, asks.len())?;
        for ask in asks {
            let outcome = self.execute(alloc, ask.0, ask.1.as_str(), &ask.2);
            outcomes.push(outcome).unwrap();
        }
        Ok(outcomes)
    }
}
