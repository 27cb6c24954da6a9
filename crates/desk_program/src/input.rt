//! A script, as it comes in: settings, and lines of commands.

ghost use Rattle.std.specs.Prelude.{◌≡◌, ◌≢◌, ◌≤◌, ◌<◌, ◌+◌, ◌-◌, List, ℕ};
ghost use Rattle.std.specs.Prelude.{Ok, Err, None, length, IfOk, IfErr, IfSome, if◌then◌else◌};
ghost use Rattle.std.specs.Option.{option_map};
ghost use Rattle.stream_core.specs.Calls.{counted};
ghost use Rattle.stream_core.specs.Seen.{HaveOneReader, left_in, reads_of};
ghost use Rattle.stream_core.specs.Streams.{ConsumesAtMost};
ghost use Rattle.wire_core.specs.Counted.{LeavesReader};
ghost use Rattle.desk_program.specs.Input as form;

use crate::fault::InputFault;
use std::alloc::Global;
use std::io::Read;
use std::str;
use stream_core::CountedReader;

/// The most bytes of a script.
pub(crate) const MAX_INPUT: usize = 1_048_576;

/// The most reads that an input takes: each but the last gives a byte or more.
const MAX_READS: u32 = 1_048_577;

/// How many bytes are asked for at once.
const CHUNK: usize = 8_192;

/// Settings and commands, as they stand in an input.
#[derive(Clone, Copy)]
pub(crate) struct Script<'i> {
    pub(crate) settings: &'i [u8],
    pub(crate) commands: &'i str,
}

/// All that a reader has left, where that is at most 1,048,576 bytes. `TooLong` is answered after
/// one byte more, and `Read` where a read failed or it was out of memory.
#[tactic(auto, using(crate::proofs::ReadCounts::since_first, crate::proofs::ReadCounts::since_more))]
pub(crate) fn take_input<R: Read>(
    alloc: Global,
    reader: &mut CountedReader<'_, R>,
) -> Result<Vec<u8>, InputFault>
    ensures whole { IfOk result (λ taken. (length taken.items ≤ form.input_limit)
        × IfSome (left_in R.remaining reader.old) (λ all. all ≡ taken.items)) }
    ensures long { result ≡ Err InputFault.TooLong
        → form.IsLong (left_in R.remaining reader.old) }
    ensures kinds { IfErr result (λ fault. fault ≢ InputFault.TooLong → fault ≡ InputFault.Read) }
    ensures left { LeavesReader R.remaining (form.input_limit + 1) reader.old reader.new }
    ensures asked { counted (reads_of reader.old) ≤ reads_of reader.new }
{
    let mut taken = Vec::new(alloc);
    for turn in 0..MAX_READS {
        match take_some(reader, &mut taken) {
            Ok(0) => return Ok(taken),
            Ok(_) => {}
            Err(fault) => return Err(fault),
        }
        if taken.len() > MAX_INPUT {
            return Err(InputFault::TooLong);
        }
    }
    unreachable!()
}

/// One read, whose bytes go to the end of those taken so far: how many they are. At most one byte
/// more than an input may have is taken in all.
fn take_some<R: Read>(
    reader: &mut CountedReader<'_, R>,
    taken: &mut Vec<u8>,
) -> Result<usize, InputFault>
    requires { length taken.old.items ≤ form.input_limit }
    ensures same_reader { HaveOneReader reader.new reader.old }
    ensures read { form.TakesMore (left_in R.remaining reader.old) (left_in R.remaining reader.new)
        taken.old.items taken.new.items result }
    ensures taken { ConsumesAtMost (left_in R.remaining reader.old)
        (left_in R.remaining reader.new) (form.input_limit + 1 - length taken.old.items) }
    ensures reads { reads_of reader.new ≤ reads_of reader.old + 1 }
    ensures asked { reads_of reader.new ≡ counted (reads_of reader.old) }
{
    let mut chunk = [0u8; CHUNK];
    let room = CHUNK.min(MAX_INPUT + 1 - taken.len());
    match reader.read(&mut chunk[..room]) {
        Ok(count) => match taken.extend_from_slice(&chunk[..count]) {
            Ok(()) => Ok(count),
            Err(_) => Err(InputFault::Read),
        },
        Err(_) => Err(InputFault::Read),
    }
}

/// The script that an input is, where it isn't too long.
pub(crate) fn script_of(input: &[u8]) -> Result<Script<'_>, InputFault>
    ensures ok { IfOk result (λ script. form.IsScriptWithin input.now
        (Ok (record { settings = script.settings.now; commands = script.commands.now }))) }
    ensures err { IfErr result (λ fault. form.IsScriptWithin input.now (Err fault)) }
{
    let Some((settings, rest)) = split(input) else {
        return Err(InputFault::NoMarker);
    };
    match str::from_utf8(rest) {
        Ok(commands) => Ok(Script { settings, commands }),
        Err(_) => Err(InputFault::NotUtf8),
    }
}

/// What stands before the first line `%%`, and what stands after it.
fn split(input: &[u8]) -> Option<(&[u8], &[u8])>
    ensures { form.IsSplitOf input.now
        (option_map (λ halves. (halves.0.now, halves.1.now)) result) }
{
    let mut begins = true;
    for (place, byte) in input.iter().enumerate() {
        if let Some(rest) = marker_rest(begins, &input[place..]) {
            return Some((&input[..place], rest));
        }
        begins = *byte == b'\n';
    }
    None
}

/// What follows a line `%%` at the front of a text that begins a line.
fn marker_rest(begins: bool, text: &[u8]) -> Option<&[u8]>
    ensures { option_map (λ rest. rest.now) result
        ≡ (if begins then form.after_marker text.now else None) }
{
    if begins { after_marker(text) } else { None }
}

/// What follows a line `%%` at the front, if one stands there.
fn after_marker(text: &[u8]) -> Option<&[u8]>
    ensures { option_map (λ rest. rest.now) result ≡ form.after_marker text.now }
{
    if text == b"%%".as_slice() {
        Some(&text[2..])
    } else if text.starts_with(b"%%\n") {
        Some(&text[3..])
    } else if text.starts_with(b"%%\r\n") {
        Some(&text[4..])
    } else {
        None
    }
}
