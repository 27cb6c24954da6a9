//! A command is done, and what came of it is put into words.
//!
//! What owns much is given back by `drop`, whose proof stands once; at the end of its scope it
//! would be taken apart for each function's own proof.
ghost use Rattle.std.specs.Prelude.{◌≡◌, Err, IfOk, OnErr};
ghost use Rattle.desk_model.specs.declared.refusal.Refusal.TheVariants.{Unavailable};
ghost use Rattle.service_core.specs.Leaves.{LeavesDesk};
ghost use Rattle.service_core.specs.Seen.{settings_of, tables_of};
ghost use Rattle.service_core.specs.TableSteps.{StepOverTables, ask_by};
ghost use Rattle.service_core.specs.Telling.{TellsOn};

use crate::desk::Desk;
use desk_core::{Answer, Command, Refusal};
use desk_texts::{SHORT_TEXT, text_in_room};
use std::alloc::{AllocError, Global};
use store_core::Backend;

/// What came of a command, and its text.
#[derive(Drop)]
pub struct AnswerText {
    /// The answer, or the refusal.
    pub outcome: Result<Answer, Refusal>,
    /// The text, which ends with a line feed unless it is empty.
    pub text: Vec<u8>,
}

impl AnswerText {
    /// The text alone.
    pub fn into_text(self) -> Vec<u8>
        ensures { result ≡ self.text }
    {
        drop(self.outcome);
        self.text
    }
}

impl<S: Backend> Desk<S> {
    /// Does one command as `execute` does, and puts what came of it into words. The room for the
    /// text of a command that changes the desk is had before it is done.
    ///
    /// `AllocError` where there is no memory for that room, or for the text of a command that only
    /// read: what came of the command is then `Unavailable`, and the desk is as it was.
    pub fn execute_as_text(
        &mut self,
        alloc: Global,
        at: u32,
        caller: &str,
        command: &Command,
    ) -> Result<AnswerText, AllocError>
        ensures ok { IfOk result (λ told. TellsOn (settings_of S.Store self.old)
            (ask_by at caller.now command.now)
            (tables_of S.Store self.old) (tables_of S.Store self.new)
            told.outcome told.text.items) }
        ensures err { OnErr result (StepOverTables (settings_of S.Store self.old)
            (ask_by at caller.now command.now) (Err Unavailable)
            (tables_of S.Store self.old) (tables_of S.Store self.new)) }
        ensures left { LeavesDesk S.Store self.old self.new }
    {
        let room = Vec::with_capacity(alloc, SHORT_TEXT)?;
        let outcome = self.execute(alloc, at, caller, command);
        match text_in_room(alloc, &outcome, room) {
            Ok(text) => Ok(AnswerText { outcome, text }),
            Err(_) => {
                drop(outcome);
                Err(AllocError)
            }
        }
    }
}
