//! A whole script, from its reader to its writer.

ghost use Rattle.std.specs.Prelude.{◌≡◌, ◌≤◌, ℕ, List, IfSome, Result};
ghost use Rattle.desk_program.specs.Input as form;
ghost use Rattle.desk_program.specs.Script as script;
ghost use Rattle.desk_program.specs.Script.{RunsScript, WritesScript};
ghost use Rattle.desk_program.specs.Status.{code_of};
ghost use Rattle.stream_core.specs.Calls.{counted};
ghost use Rattle.stream_core.specs.Seen.{HaveOneWriter, left_in, reads_of};
ghost use Rattle.stream_core.specs.Streams.{ConsumesAtMost};
ghost use Rattle.stream_core.specs.Written.{Prints};
ghost use Rattle.wire_core.specs.Counted.{LeavesReader};

use crate::fault::InputFault;
use crate::fault_lines::{put_input_fault, put_settings_fault};
use crate::input::{script_of, take_input};
use crate::run::run_in_memory;
use crate::status::Status;
use settings_core::{Settings, SettingsFault};
use std::alloc::Global;
use std::io::{Read, Write};
use stream_core::{CountedReader, CountedWriter};

/// What becomes of the memory of a script's desk when the script has ended.
#[derive(Clone, Copy)]
pub enum Memory {
    /// It is given back.
    GivenBack,
    /// It is left to the process, which ends: to give back the rows of a large desk one by one
    /// takes time, and serves nobody then.
    Left,
}

/// Runs a script over a desk in memory, and answers the exit status.
///
/// The input has settings, a line `%%`, and a command on each line after it: a moment in minutes
/// since 1970-01-01 00:00 UTC, a caller, and the words of the command. Each line's answer is
/// written as it is done. A fault of the whole, such as a store in memory that can't be opened, is
/// one line. A failed write, or one that takes no byte, ends the run with status 4: what was
/// written is then a part from the front of what the script prints.
///
/// At most 1,048,577 bytes are taken of the reader. The writer isn't flushed. A read or a write that
/// was interrupted has failed.
pub fn run_script<R: Read, W: Write>(alloc: Global, reader: &mut R, writer: &mut W) -> u8
    ensures ran { WritesScript
        (R.remaining reader.old) (W.contents writer.old) (W.contents writer.new) result }
    ensures taken { ConsumesAtMost (R.remaining reader.old) (R.remaining reader.new) 1048577 }
{
    let mut reader = CountedReader::new(reader);
    let mut output = CountedWriter::new(writer);
    run_script_counted(alloc, &mut reader, &mut output, Memory::GivenBack)
}

/// Runs a script as `run_script` does, by a reader and a writer that count. At least one read is
/// made, and at most 1,048,577, and at most as many writes as bytes are printed.
pub fn run_script_counted<R: Read, W: Write>(
    alloc: Global,
    reader: &mut CountedReader<'_, R>,
    output: &mut CountedWriter<'_, W>,
    memory: Memory,
) -> u8
    ensures same_writer { HaveOneWriter output.new output.old }
    ensures ran { RunsScript R.remaining W.contents reader.old output.old output.new result }
    ensures left { LeavesReader R.remaining 1048577 reader.old reader.new }
    ensures asked { counted (reads_of reader.old) ≤ reads_of reader.new }
{
    print_script(alloc, reader, output, memory).after(output)
}

/// Takes the input in and runs it: its status, if no write fails.
fn print_script<R: Read, W: Write>(
    alloc: Global,
    reader: &mut CountedReader<'_, R>,
    output: &mut CountedWriter<'_, W>,
    memory: Memory,
) -> Status
    ensures same_writer { HaveOneWriter output.new output.old }
    ensures printed { (input : List ℕ) × (text : List ℕ)
        × IfSome (left_in R.remaining reader.old) (λ all. all ≡ input)
        × script.IsOutput input text (code_of result) × Prints W.contents output.old output.new text }
    ensures left { LeavesReader R.remaining 1048577 reader.old reader.new }
    ensures asked { counted (reads_of reader.old) ≤ reads_of reader.new }
{
    match take_input(alloc, reader) {
        Ok(input) => run_input(alloc, input.as_slice(), output, memory),
        Err(fault) => {
            put_input_fault(output, fault);
            Status::Failed
        }
    }
}

/// Runs an input that isn't too long.
fn run_input<W: Write>(
    alloc: Global,
    input: &[u8],
    output: &mut CountedWriter<'_, W>,
    memory: Memory,
) -> Status
    ensures same_writer { HaveOneWriter output.new output.old }
    ensures printed { (found : Result form.Script InputFault) × (text : List ℕ)
        × form.IsScriptWithin input.now found × script.IsScriptOutput found text (code_of result)
        × Prints W.contents output.old output.new text }
{
    match script_of(input) {
        Ok(script) => run_commands(alloc, script.settings, script.commands, output, memory),
        Err(fault) => {
            put_input_fault(output, fault);
            Status::Failed
        }
    }
}

/// Runs the commands with the settings of a text.
fn run_commands<W: Write>(
    alloc: Global,
    settings: &[u8],
    commands: &str,
    output: &mut CountedWriter<'_, W>,
    memory: Memory,
) -> Status
    ensures same_writer { HaveOneWriter output.new output.old }
    ensures printed { (given : Result Settings SettingsFault) × (text : List ℕ)
        × form.GivesSettings settings.now given
        × script.IsCommandsOutput given commands.now text (code_of result)
        × Prints W.contents output.old output.new text }
{
    match read_settings(alloc, settings) {
        Ok(settings) => run_in_memory(alloc, settings, commands, output, memory),
        Err(fault) => {
            put_settings_fault(output, fault);
            Status::BadSettings
        }
    }
}

/// The settings of a text, or its least fault.
pub(crate) fn read_settings(alloc: Global, text: &[u8]) -> Result<Settings, SettingsFault>
    ensures { form.GivesSettings text.now result }
{
    Settings::read(alloc, text)
}
