//! One command on the tables of a store.
//!
//! What owns much is given back by `drop`, whose proof stands once; at the end of its scope it
//! would be taken apart for each function's own proof.
ghost use Rattle.std.specs.Prelude.{◌≡◌, ◌⊎◌, ◌+◌, ◌≤◌, [], ℕ, Bool, List, Some, true, false, map};
ghost use Rattle.std.specs.Prelude.{string_bytes};
ghost use Rattle.store_core.specs.Seen.{connection_of, state_of};
ghost use Rattle.store_tables.specs.Calls.{WasClean};
ghost use Rattle.service_core.specs.Seen.{settings_of, tables_of};
ghost use Rattle.service_core.specs.Streaming.{is_list};
ghost use Rattle.service_core.specs.TableSteps.{OverTables, ask_by};
ghost use Rattle.stream_core.specs.Seen.{HaveOneWriter, has_write_failed};
ghost use Rattle.stream_core.specs.Written.{Prints};
ghost use Rattle.desk_model.specs.declared.refusal.Refusal.{Refusal};
ghost use Rattle.desk_texts.specs.Texts.{refusal_text};
ghost use Rattle.desk_program.specs.One as one;
ghost use Rattle.desk_program.specs.One.{RunsCommand, TakesStep, asked_by};
ghost use Rattle.desk_program.specs.Status.{code_of};

use crate::fault_lines::{put_bad_words, put_unavailable};
use crate::opening::open;
use crate::status::Status;
use desk_core::{Answer, Command, Refusal};
use service_core::{Desk, StreamFault, refusal_text};
use std::alloc::Global;
use std::io::Write;
use store_core::{Backend, Store};
use stream_core::CountedWriter;
use wire_core::{WordsFault, command_of_words};

/// Runs one command by a caller, at a moment in minutes since 1970-01-01 00:00 UTC, on the tables
/// of a store, with the settings of a text, and answers the exit status.
///
/// The first fault is told by a line. Words that spell no command are `bad words`, with 2, before a
/// fault of the settings, with 3, one of the store when missing tables were to be made, and one of
/// attaching the settings, each with 4. Else the command's answer is written, with 0, or its
/// refusal, with 1; tables that were missing stay made after a refusal too. Out of memory for the
/// words it is `refused 16 Unavailable`, with 1, and nothing is done. A list of requests is written
/// row by row: where memory or the store refuses in its middle, that line comes after the rows so
/// far.
///
/// A failed write, or one that takes no byte, ends it with status 4: what was written is then a
/// part from the front of the text, and the change of the command stays.
///
/// The store is given back beside the status, with what the command made of its tables.
pub fn run_one<S: Backend, W: Write>(
    alloc: Global,
    settings: &[u8],
    store: Store<S>,
    caller: &str,
    at: u32,
    words: &[String],
    output: &mut CountedWriter<'_, W>,
) -> (u8, Store<S>)
    requires { has_write_failed output.old ≡ false }
    ensures same_writer { HaveOneWriter output.new output.old }
    ensures ran { RunsCommand S.Store W.contents
        (asked_by settings.now at caller.now (map string_bytes words.now))
        (connection_of S.Store store) (connection_of S.Store result.1)
        output.old output.new result.0 }
{
    let (status, store) = run_words(alloc, settings, store, caller, at, words, output);
    (status.after(output), store)
}

/// Runs the command that the words spell: its status, if no write fails.
fn run_words<S: Backend, W: Write>(
    alloc: Global,
    settings: &[u8],
    store: Store<S>,
    caller: &str,
    at: u32,
    words: &[String],
    output: &mut CountedWriter<'_, W>,
) -> (Status, Store<S>)
    requires { has_write_failed output.old ≡ false }
    ensures same_writer { HaveOneWriter output.new output.old }
    ensures printed { (line : List ℕ)
        × one.IsOneOutput S.Store
        (asked_by settings.now at caller.now (map string_bytes words.now))
        (has_write_failed output.new)
        (connection_of S.Store store) (connection_of S.Store result.1) line (code_of result.0)
        × Prints W.contents output.old output.new line }
{
    match command_of_words(alloc, words) {
        Ok(command) => {
            let ended = run_command(alloc, settings, store, caller, at, &command, output);
            drop(command);
            ended
        }
        Err(WordsFault::NoMemory) => {
            put_unavailable(output);
            (Status::Refused, store)
        }
        Err(_) => {
            put_bad_words(output);
            (Status::BadWords, store)
        }
    }
}

/// Opens the desk and runs the command.
fn run_command<S: Backend, W: Write>(
    alloc: Global,
    settings: &[u8],
    store: Store<S>,
    caller: &str,
    at: u32,
    command: &Command,
    output: &mut CountedWriter<'_, W>,
) -> (Status, Store<S>)
    requires { has_write_failed output.old ≡ false }
    ensures same_writer { HaveOneWriter output.new output.old }
    ensures printed { (line : List ℕ)
        × one.IsCommandOutput S.Store settings.now at caller.now (Some command.now)
        (has_write_failed output.new) (connection_of S.Store store) (connection_of S.Store result.1) line (code_of result.0)
        × Prints W.contents output.old output.new line }
{
    match open(alloc, store, settings, output) {
        Ok(desk) => run_on_desk(alloc, desk, caller, at, command, output),
        Err(told) => told,
    }
}

/// Runs the command on an opened desk, and gives its store back.
fn run_on_desk<S: Backend, W: Write>(
    alloc: Global,
    desk: Desk<S>,
    caller: &str,
    at: u32,
    command: &Command,
    output: &mut CountedWriter<'_, W>,
) -> (Status, Store<S>)
    requires { has_write_failed output.old ≡ false }
    ensures same_writer { HaveOneWriter output.new output.old }
    ensures printed { (line : List ℕ)
        × OverTables (settings_of S.Store desk)
        (TakesStep (settings_of S.Store desk) (ask_by at caller.now command.now)
        (has_write_failed output.new) line (code_of result.0)) (tables_of S.Store desk)
        (state_of S.Store result.1)
        × Prints W.contents output.old output.new line }
    ensures honest { WasClean (tables_of S.Store desk) (state_of S.Store result.1) }
{
    let mut desk = desk;
    let status = run_step(alloc, &mut desk, caller, at, command, output);
    let (store, settings) = desk.detach();
    drop(settings);
    (status, store)
}

/// Does the command and prints its text: a list row by row, any other text at once.
fn run_step<S: Backend, W: Write>(
    alloc: Global,
    desk: &mut Desk<S>,
    caller: &str,
    at: u32,
    command: &Command,
    output: &mut CountedWriter<'_, W>,
) -> Status
    requires { has_write_failed output.old ≡ false }
    ensures same_writer { HaveOneWriter output.new output.old }
    ensures printed { (line : List ℕ)
        × OverTables (settings_of S.Store desk.old)
        (TakesStep (settings_of S.Store desk.old) (ask_by at caller.now command.now)
        (has_write_failed output.new) line (code_of result)) (tables_of S.Store desk.old)
        (tables_of S.Store desk.new)
        × Prints W.contents output.old output.new line }
    ensures honest { WasClean (tables_of S.Store desk.old) (tables_of S.Store desk.new) }
{
    match command {
        Command::List { .. } | Command::Overdue => {
            run_list(alloc, desk, caller, at, command, output)
        }
        _ => run_whole(alloc, desk, caller, at, command, output),
    }
}

/// Prints a list row by row. Where memory or the store refuses in its middle, the line that says so
/// comes after the rows so far.
fn run_list<S: Backend, W: Write>(
    alloc: Global,
    desk: &mut Desk<S>,
    caller: &str,
    at: u32,
    command: &Command,
    output: &mut CountedWriter<'_, W>,
) -> Status
    requires list { is_list command.now ≡ true }
    requires unfailed { has_write_failed output.old ≡ false }
    ensures same_writer { HaveOneWriter output.new output.old }
    ensures printed { (line : List ℕ)
        × OverTables (settings_of S.Store desk.old)
        (TakesStep (settings_of S.Store desk.old) (ask_by at caller.now command.now)
        (has_write_failed output.new) line (code_of result)) (tables_of S.Store desk.old)
        (tables_of S.Store desk.new)
        × Prints W.contents output.old output.new line }
    ensures honest { WasClean (tables_of S.Store desk.old) (tables_of S.Store desk.new) }
{
    match desk.stream_counted(alloc, at, caller, command, output) {
        Ok(()) => Status::Done,
        // the writer tells that it failed, and then the status is 4
        Err(StreamFault::Write) => Status::Done,
        Err(StreamFault::Refused(refusal)) => {
            put_refusal(alloc, refusal, output);
            Status::Refused
        }
    }
}

/// Prints the text of a refusal, or that there is no memory for it.
fn put_refusal<W: Write>(alloc: Global, refusal: Refusal, output: &mut CountedWriter<'_, W>)
    ensures same_writer { HaveOneWriter output.new output.old }
    ensures printed { (told : Refusal)
        × ((told ≡ refusal) ⊎ (told ≡ Refusal.Unavailable))
        × Prints W.contents output.old output.new (refusal_text told) }
{
    let text = refusal_text(alloc, &refusal);
    drop(refusal);
    match text {
        Ok(text) => output.put(text.as_bytes()),
        Err(_) => put_unavailable(output),
    }
}

/// Does the command and prints its text.
fn run_whole<S: Backend, W: Write>(
    alloc: Global,
    desk: &mut Desk<S>,
    caller: &str,
    at: u32,
    command: &Command,
    output: &mut CountedWriter<'_, W>,
) -> Status
    ensures same_writer { HaveOneWriter output.new output.old }
    ensures printed { (line : List ℕ)
        × OverTables (settings_of S.Store desk.old)
        (TakesStep (settings_of S.Store desk.old) (ask_by at caller.now command.now)
        (has_write_failed output.new) line (code_of result)) (tables_of S.Store desk.old)
        (tables_of S.Store desk.new)
        × Prints W.contents output.old output.new line }
    ensures honest { WasClean (tables_of S.Store desk.old) (tables_of S.Store desk.new) }
{
    match desk.execute_as_text(alloc, at, caller, command) {
        Ok(told) => {
            let status = status_of(&told.outcome);
            let text = told.into_text();
            output.put(text.as_slice());
            status
        }
        Err(_) => {
            put_unavailable(output);
            Status::Refused
        }
    }
}

/// The status of what came of a command.
fn status_of(outcome: &Result<Answer, Refusal>) -> Status
    ensures { code_of result ≡ one.status_of outcome.now }
{
    match outcome {
        Ok(_) => Status::Done,
        Err(_) => Status::Refused,
    }
}
