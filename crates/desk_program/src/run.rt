//! Commands are run on a desk in memory.
//!
//! What owns much is given back by `drop`, whose proof stands once; at the end of its scope it
//! would be taken apart for each function's own proof.
ghost use Rattle.std.specs.Prelude.{◌≡◌, ℕ, List, Ok};
ghost use Rattle.store_tables.specs.Making.{IsBlank};
ghost use Rattle.store_core.specs.Due.{RepresentsWithDue};
ghost use Rattle.store_core.specs.Seen.{state_of};
ghost use Rattle.store_tables.specs.Stands.{Represents};
ghost use Rattle.desk_model.specs.Desk.{empty_desk};
ghost use Rattle.service_core.specs.Leaves.{LeavesDesk};
ghost use Rattle.service_core.specs.Seen.{settings_of, tables_of};
ghost use Rattle.stream_core.specs.Seen.{HaveOneWriter};
ghost use Rattle.stream_core.specs.Written.{Prints};
ghost use Rattle.desk_program.specs.Script.{AnswersCommands, HasCleanDisks, IsCommandsOutput};
ghost use Rattle.desk_program.specs.Script.{LineLeads, line_of};
ghost use Rattle.desk_program.specs.Status.{code_of};

use crate::fault_lines::{put_attach_fault, put_store_fault, put_unavailable};
use crate::line::answer_line;
use crate::script::Memory;
use crate::status::Status;
use service_core::Desk;
use settings_core::Settings;
use std::alloc::Global;
use std::io::Write;
use std::mem::forget;
use store_core::{Backend, Store};
use stream_core::CountedWriter;

/// Runs the commands on an empty desk in memory with these settings.
pub(crate) fn run_in_memory<W: Write>(
    alloc: Global,
    settings: Settings,
    commands: &str,
    output: &mut CountedWriter<'_, W>,
    memory: Memory,
) -> Status
    ensures same_writer { HaveOneWriter output.new output.old }
    ensures printed { (text : List ℕ)
        × IsCommandsOutput (Ok settings) commands.now text (code_of result)
        × Prints W.contents output.old output.new text }
{
    match Store::open_in_memory(alloc) {
        Ok(store) => run_in_store(alloc, store, settings, commands, output, memory),
        Err(fault) => {
            drop(settings);
            put_store_fault(output, fault);
            Status::Failed
        }
    }
}

/// Makes the tables of a store without any, and runs the commands on its desk.
fn run_in_store<S: Backend + Drop, W: Write>(
    alloc: Global,
    mut store: Store<S>,
    settings: Settings,
    commands: &str,
    output: &mut CountedWriter<'_, W>,
    memory: Memory,
) -> Status
    requires clean { HasCleanDisks S.Store }
    requires blank { IsBlank (state_of S.Store store) }
    ensures same_writer { HaveOneWriter output.new output.old }
    ensures printed { (text : List ℕ)
        × IsCommandsOutput (Ok settings) commands.now text (code_of result)
        × Prints W.contents output.old output.new text }
{
    match store.create_schema(alloc) {
        Ok(()) => run_on_tables(alloc, store, settings, commands, output, memory),
        Err(fault) => {
            drop(settings);
            drop(store);
            put_store_fault(output, fault);
            Status::Failed
        }
    }
}

/// Attaches the settings to the tables of the empty desk, and runs the commands.
fn run_on_tables<S: Backend + Drop, W: Write>(
    alloc: Global,
    store: Store<S>,
    settings: Settings,
    commands: &str,
    output: &mut CountedWriter<'_, W>,
    memory: Memory,
) -> Status
    requires clean { HasCleanDisks S.Store }
    requires empty { Represents empty_desk (state_of S.Store store) }
    ensures same_writer { HaveOneWriter output.new output.old }
    ensures printed { (text : List ℕ)
        × IsCommandsOutput (Ok settings) commands.now text (code_of result)
        × Prints W.contents output.old output.new text }
{
    match Desk::attach(alloc, store, settings) {
        Ok(mut desk) => {
            run_lines(alloc, &mut desk, commands, output);
            let_go(desk, memory);
            Status::Done
        }
        Err((fault, store)) => {
            drop(store);
            put_attach_fault(output, fault);
            Status::Failed
        }
    }
}

fn let_go<S: Backend + Drop>(desk: Desk<S>, memory: Memory) {
    match memory {
        Memory::GivenBack => drop(desk),
        Memory::Left => forget(desk),
    }
}

/// Prints what each line prints, after its command is done, on an empty desk. A write that fails
/// ends the run.
fn run_lines<S: Backend, W: Write>(
    alloc: Global,
    desk: &mut Desk<S>,
    commands: &str,
    output: &mut CountedWriter<'_, W>,
)
    requires clean { HasCleanDisks S.Store }
    requires empty { RepresentsWithDue (settings_of S.Store desk.old) empty_desk
        (tables_of S.Store desk.old) }
    ensures same_writer { HaveOneWriter output.new output.old }
    ensures printed { (text : List ℕ)
        × AnswersCommands (settings_of S.Store desk.old) commands.now text
        × Prints W.contents output.old output.new text }
{
    for line in commands.lines() {
        run_line(alloc, desk, line, output);
        if output.failed() {
            return;
        }
    }
}

/// Prints what a line prints, after its command is done.
fn run_line<S: Backend, W: Write>(
    alloc: Global,
    desk: &mut Desk<S>,
    line: &str,
    output: &mut CountedWriter<'_, W>,
)
    ensures same_writer { HaveOneWriter output.new output.old }
    ensures left { LeavesDesk S.Store desk.old desk.new }
    ensures printed { (text : List ℕ)
        × LineLeads (settings_of S.Store desk.old) (line_of line.now) text
        (tables_of S.Store desk.old) (tables_of S.Store desk.new)
        × Prints W.contents output.old output.new text }
{
    match answer_line(alloc, desk, line) {
        Ok(text) => output.put(text.as_slice()),
        Err(_) => put_unavailable(output),
    }
}
