//! A list of requests that is written row by row.
//!
//! What owns much is given back by `drop`, whose proof stands once; at the end of its scope it
//! would be taken apart for each function's own proof.
ghost use Rattle.std.specs.Prelude.{◌≡◌, false, true, None};
ghost use Rattle.desk_model.specs.Desk as desks;
ghost use Rattle.desk_model.specs.Step.{facts_of, refusal_beforehand};
ghost use Rattle.store_tables.specs.Calls.{LeavesTables};
ghost use Rattle.store_core.specs.Seen.{state_of};
ghost use Rattle.stream_core.specs.Seen.{HaveOneWriter, has_write_failed};
ghost use Rattle.stream_core.specs.Written.{IsWritten, Prints};
ghost use Rattle.service_core.specs.Asked.{asked};
ghost use Rattle.service_core.specs.Leaves.{LeavesWriter, SparesDesk};
ghost use Rattle.service_core.specs.Seen.{settings_of, tables_of};
ghost use Rattle.service_core.specs.Streaming.{Admits, IsAdmitted, StreamsAdmitted};
ghost use Rattle.service_core.specs.Streaming.{StreamsOn, StreamsSafely, is_list, is_write};
ghost use Rattle.service_core.specs.TableSteps.{RepresentsSame, ask_by};

use crate::desk::Desk;
use desk_core::{Call, Command, Facts, Refusal, decide_on_facts, refusal_without_facts};
use desk_reports::{StreamFault, stream_list, stream_overdue};
use std::alloc::Global;
use std::io::Write;
use store_core::{Backend, Store};
use stream_core::CountedWriter;

impl<S: Backend> Desk<S> {
    /// Writes the text of a queue's list or of what is overdue, row by row, for a caller at a
    /// moment, in minutes since 1970-01-01 00:00 UTC: the text that `execute` would answer. No
    /// table changes, and of the rows 64 at most are in memory. The writer isn't flushed.
    ///
    /// A command that is refused writes nothing. `Write` where a write fails or takes no byte: a
    /// part from the front of the text was written. `Unavailable` where memory or the store
    /// refused, maybe after a part of the text.
    pub fn stream<W: Write>(
        &mut self,
        alloc: Global,
        at: u32,
        caller: &str,
        command: &Command,
        writer: &mut W,
    ) -> Result<(), StreamFault>
        requires { is_list command.now ≡ true }
        ensures streamed { StreamsOn (settings_of S.Store self.old)
            (ask_by at caller.now command.now)
            (tables_of S.Store self.old) (tables_of S.Store self.new) result
            (IsWritten (is_write result) (W.contents writer.old) (W.contents writer.new)) }
        ensures stands { RepresentsSame (settings_of S.Store self.old)
            (tables_of S.Store self.old) (tables_of S.Store self.new) }
        ensures left { SparesDesk S.Store self.old self.new }
    {
        let mut output = CountedWriter::new(writer);
        self.stream_counted(alloc, at, caller, command, &mut output)
    }

    /// Writes a list as `stream` does, to a writer that counts and that has not failed. What every
    /// desk refuses costs no look at the tables.
    pub fn stream_counted<W: Write>(
        &mut self,
        alloc: Global,
        at: u32,
        caller: &str,
        command: &Command,
        output: &mut CountedWriter<'_, W>,
    ) -> Result<(), StreamFault>
        requires list { is_list command.now ≡ true }
        requires unfailed { has_write_failed output.old ≡ false }
        ensures writer { LeavesWriter (is_write result) output.old output.new }
        ensures streamed { StreamsOn (settings_of S.Store self.old)
            (ask_by at caller.now command.now)
            (tables_of S.Store self.old) (tables_of S.Store self.new) result
            (Prints W.contents output.old output.new) }
        ensures stands { RepresentsSame (settings_of S.Store self.old)
            (tables_of S.Store self.old) (tables_of S.Store self.new) }
        ensures left { SparesDesk S.Store self.old self.new }
    {
        let settings = &self.settings;
        match refusal_without_facts(settings, at, caller, command) {
            Some(refusal) => Err(StreamFault::Refused(refusal)),
            None => put_if_admitted(
                alloc,
                &mut self.store,
                Call {
                    settings,
                    at,
                    caller,
                },
                command,
                output,
            ),
        }
    }
}

/// Writes the list that a command asks for, if the tables don't refuse it.
fn put_if_admitted<S: Backend, W: Write>(
    alloc: Global,
    store: &mut Store<S>,
    call: Call<'_>,
    command: &Command,
    output: &mut CountedWriter<'_, W>,
) -> Result<(), StreamFault>
    requires list { is_list command.now ≡ true }
    requires ready { has_write_failed output.old ≡ false }
    requires free { refusal_beforehand call.settings.now call.at call.caller.now
        command.now ≡ None }
    ensures same_writer { HaveOneWriter output.new output.old }
    ensures streamed { StreamsSafely
        (StreamsOn call.entry.settings.now (asked call.entry command.now)) W.contents
        (state_of S.Store store.old) (state_of S.Store store.new) output.old output.new result }
{
    match admit(alloc, store, call, command) {
        Ok(()) => put_list(alloc, store, call, command, output),
        Err(refusal) => Err(StreamFault::Refused(refusal)),
    }
}

/// Asks whether a command is refused. The tables stay as they are.
fn admit<S: Backend>(
    alloc: Global,
    store: &mut Store<S>,
    call: Call<'_>,
    command: &Command,
) -> Result<(), Refusal>
    requires { refusal_beforehand call.settings.now call.at call.caller.now
        command.now ≡ None }
    ensures admitted { Admits call.entry.settings.now (asked call.entry command.now) result
        (state_of S.Store store.old) (state_of S.Store store.new) }
    ensures kept { LeavesTables (state_of S.Store store.old) (state_of S.Store store.new) }
{
    let facts = store.facts_for(alloc, command)?;
    let admitted = admit_seeing(alloc, call, command, &facts);
    drop(facts);
    admitted
}

/// Asks whether a command that sees this is refused.
fn admit_seeing(
    alloc: Global,
    call: Call<'_>,
    command: &Command,
    facts: &Facts,
) -> Result<(), Refusal>
    requires { refusal_beforehand call.settings.now call.at call.caller.now
        command.now ≡ None }
    ensures { (desk : desks.Desk) → facts.now ≡ facts_of command.now desk
        → IsAdmitted call.entry.settings.now (asked call.entry command.now) desk result }
{
    match decide_on_facts(alloc, call.settings, call.at, call.caller, facts, command) {
        Ok(change) => {
            drop(change);
            Ok(())
        }
        Err(refusal) => Err(refusal),
    }
}

/// Writes the list of a command that isn't refused.
fn put_list<S: Backend, W: Write>(
    alloc: Global,
    store: &mut Store<S>,
    call: Call<'_>,
    command: &Command,
    output: &mut CountedWriter<'_, W>,
) -> Result<(), StreamFault>
    requires list { is_list command.now ≡ true }
    requires unfailed { has_write_failed output.old ≡ false }
    ensures same_writer { HaveOneWriter output.new output.old }
    ensures streamed { StreamsSafely
        (StreamsAdmitted call.entry.settings.now (asked call.entry command.now)) W.contents
        (state_of S.Store store.old) (state_of S.Store store.new) output.old output.new result }
{
    let (settings, caller) = (call.settings, call.caller);
    match command {
        Command::List { queue } => stream_list(alloc, store, settings, caller, queue, output),
        Command::Overdue => stream_overdue(alloc, store, call, output),
        _ => unreachable!(),
    }
}
