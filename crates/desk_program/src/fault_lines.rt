//! The lines that tell faults.

ghost use Rattle.std.specs.Prelude.{◌≡◌};
ghost use Rattle.stream_core.specs.Seen.{HaveOneWriter};
ghost use Rattle.stream_core.specs.Written.{Prints};
ghost use Rattle.desk_program.specs.FaultLines.{attach_fault_text, input_fault_text, inner_text};
ghost use Rattle.desk_program.specs.FaultLines.{numbered, numbered_line, settings_fault_text};
ghost use Rattle.desk_program.specs.FaultLines.{store_fault_text, unavailable_text};
ghost use Rattle.desk_program.specs.Script.{bad_words_text};

use crate::fault::InputFault;
use desk_core::Refusal;
use itoa::Buffer;
use service_core::AttachFault;
use settings_core::SettingsFault;
use std::io::Write;
use store_core::StoreFault;
use stream_core::CountedWriter;

/// The line of words that aren't understood.
pub(crate) const BAD_WORDS: &[u8] = b"bad words\n";

/// Prints the line of a fault of the input.
pub(crate) fn put_input_fault<W: Write>(output: &mut CountedWriter<'_, W>, fault: InputFault)
    ensures same_writer { HaveOneWriter output.new output.old }
    ensures printed { Prints W.contents output.old output.new (input_fault_text fault) }
{
    output.put(b"input: ");
    output.put(fault.name().as_bytes());
    output.put(b"\n");
}

/// Prints the line of a fault of the settings.
pub(crate) fn put_settings_fault<W: Write>(output: &mut CountedWriter<'_, W>, fault: SettingsFault)
    ensures same_writer { HaveOneWriter output.new output.old }
    ensures printed { Prints W.contents output.old output.new (settings_fault_text fault) }
{
    output.put(b"settings:");
    put_numbered(output, fault.number(), fault.name());
    put_inner(output, fault);
    output.put(b"\n");
}

/// Prints the number and the name of the fault inside one, if there is one.
fn put_inner<W: Write>(output: &mut CountedWriter<'_, W>, fault: SettingsFault)
    ensures same_writer { HaveOneWriter output.new output.old }
    ensures printed { Prints W.contents output.old output.new (inner_text fault) }
{
    if let Some((number, name)) = fault.inner() {
        put_numbered(output, number, name);
    }
}

/// Prints the line of a fault of the store.
pub(crate) fn put_store_fault<W: Write>(output: &mut CountedWriter<'_, W>, fault: StoreFault)
    ensures same_writer { HaveOneWriter output.new output.old }
    ensures printed { Prints W.contents output.old output.new (store_fault_text fault) }
{
    put_numbered_line(output, b"store:", fault.number(), fault.name());
}

/// Prints the line of a fault of attaching.
pub(crate) fn put_attach_fault<W: Write>(output: &mut CountedWriter<'_, W>, fault: AttachFault)
    ensures same_writer { HaveOneWriter output.new output.old }
    ensures printed { Prints W.contents output.old output.new (attach_fault_text fault) }
{
    put_numbered_line(output, b"attach:", fault.number(), fault.name());
}

/// Prints a line of a word, a number and a name.
fn put_numbered_line<W: Write>(
    output: &mut CountedWriter<'_, W>,
    word: &[u8],
    number: u8,
    name: &str,
)
    ensures same_writer { HaveOneWriter output.new output.old }
    ensures printed { Prints W.contents output.old output.new
        (numbered_line word.now number name.now) }
{
    output.put(word);
    put_numbered(output, number, name);
    output.put(b"\n");
}

/// Prints that words spell no command.
pub(crate) fn put_bad_words<W: Write>(output: &mut CountedWriter<'_, W>)
    ensures same_writer { HaveOneWriter output.new output.old }
    ensures printed { Prints W.contents output.old output.new bad_words_text }
{
    output.put(BAD_WORDS);
}

/// Prints that a line was left out, since there was no memory for it.
pub(crate) fn put_unavailable<W: Write>(output: &mut CountedWriter<'_, W>)
    ensures same_writer { HaveOneWriter output.new output.old }
    ensures printed { Prints W.contents output.old output.new unavailable_text }
{
    let refusal = Refusal::Unavailable;
    output.put(b"refused");
    put_numbered(output, refusal.number(), refusal.name());
    output.put(b"\n");
}

/// Prints a number and a name, each after a space.
fn put_numbered<W: Write>(output: &mut CountedWriter<'_, W>, number: u8, name: &str)
    ensures same_writer { HaveOneWriter output.new output.old }
    ensures printed { Prints W.contents output.old output.new (numbered number name.now) }
{
    let mut buffer = Buffer::new();
    output.put(b" ");
    output.put(buffer.format(number).as_bytes());
    output.put(b" ");
    output.put(name.as_bytes());
}
