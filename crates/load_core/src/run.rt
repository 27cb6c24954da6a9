//! A load, from its stream to its end.
ghost use Rattle.std.specs.Prelude.{◌≡◌, false, List, ℕ, IfOk, IfErr};
ghost use Rattle.service_core.specs.Leaves.{LeavesDesk};
ghost use Rattle.service_core.specs.Seen.{settings_of, tables_of};
ghost use Rattle.stream_core.specs.Seen.{HaveOneWriter, has_write_failed, held_in};
ghost use Rattle.desk_program.specs.Script.{LineLeads};
ghost use Rattle.load_core.specs.Load.{AnswersLine, IsLoaded, IsNone, IsPassed, IsPassedBy, Runs};
ghost use Rattle.load_core.specs.Load.{Tells, ending_after, held_by, place_at, said_by};

use crate::answer::{is_done, is_refused, put_answer};
use crate::line::answer_bytes;
use line_core::{LINE_LIMIT, Taken, take_line};
use service_core::Desk;
use std::alloc::Global;
use std::io::{Read, Write};
use store_core::Backend;
use stream_core::CountedWriter;

/// What is answered to a line of too many bytes.
const BAD_WORDS: &[u8] = b"bad words\n";

/// What is answered to a line for which there was no memory.
const UNAVAILABLE: &[u8] = b"refused 16 Unavailable\n";

/// What a load is asked for.
#[derive(Clone, Copy)]
pub struct Plan {
    /// How many lines are passed over before the first that is answered.
    pub passed: u64,
    /// Whether each answer is printed, those that a command is done too.
    pub all: bool,
    /// Whether the first refusal ends the load.
    pub stop: bool,
}

/// Why a load ended.
#[derive(Clone, Copy, Debug)]
pub enum Ending {
    /// The stream did.
    Input,
    /// A line was refused, and the load was to stop there.
    Refused,
    /// A read failed, or there was no memory for a line.
    Read,
    /// A write failed.
    Write,
}

/// What came of a load.
#[derive(Clone, Copy, Debug)]
pub struct Loaded {
    /// How many lines were answered.
    pub answered: u64,
    /// Whether one of them was refused.
    pub refused: bool,
    /// Why no other was.
    pub ending: Ending,
}

/// Who is told of each line.
pub trait Progress {
    /// The line of this number was answered, and whether by `ok` or the number of a new request.
    fn told(&mut self, line: u64, is_done: bool);
}

/// Answers the lines of a reader, but for those that are passed over, each before the next one is
/// read, and writes the answers with their numbers. A line is what stands before a line feed, less
/// a carriage return in front of it, or what stands after the last one. One of more than 1,048,576
/// bytes, or that isn't UTF-8, says nothing that is understood.
///
/// A command's step is made before its answer is written, and isn't undone where that fails.
#[tactic(auto, using(service_core::proofs::LeftLemmas::left_same))]
pub fn load<S: Backend, R: Read, W: Write, P: Progress>(
    alloc: Global,
    desk: &mut Desk<S>,
    plan: Plan,
    reader: &mut R,
    output: &mut CountedWriter<'_, W>,
    progress: &mut P,
) -> Loaded
    requires { has_write_failed output.old ≡ false }
    ensures loaded { IsLoaded S.Store (settings_of S.Store desk.old) plan
        (R.remaining reader.old) (R.remaining reader.new)
        (held_by S.Store desk.old) (held_by S.Store desk.new)
        (held_in W.contents output.old) (held_in W.contents output.new) result }
    ensures same_writer { HaveOneWriter output.new output.old }
    ensures left { LeavesDesk S.Store desk.old desk.new }
{
    match Vec::with_capacity(alloc, LINE_LIMIT + 1) {
        Ok(mut line) => load_by(alloc, desk, plan, reader, &mut line, output, progress),
        Err(_) => none_answered(Ending::Read),
    }
}

/// Passes lines over, and answers those that follow.
#[tactic(auto, using(service_core::proofs::LeftLemmas::left_same))]
fn load_by<S: Backend, R: Read, W: Write, P: Progress>(
    alloc: Global,
    desk: &mut Desk<S>,
    plan: Plan,
    reader: &mut R,
    line: &mut Vec<u8>,
    output: &mut CountedWriter<'_, W>,
    progress: &mut P,
) -> Loaded
    requires { has_write_failed output.old ≡ false }
    ensures loaded { IsLoaded S.Store (settings_of S.Store desk.old) plan
        (R.remaining reader.old) (R.remaining reader.new)
        (held_by S.Store desk.old) (held_by S.Store desk.new)
        (held_in W.contents output.old) (held_in W.contents output.new) result }
    ensures same_writer { HaveOneWriter output.new output.old }
    ensures left { LeavesDesk S.Store desk.old desk.new }
{
    match pass_lines(reader, line, plan.passed) {
        Some(ending) => none_answered(ending),
        None => answer_lines(alloc, desk, plan, reader, line, output, progress),
    }
}

/// What came of a load that ended before a line was answered.
fn none_answered(ending: Ending) -> Loaded
    ensures { result ≡ (record { answered = 0; refused = false; ending = ending }) }
{
    Loaded {
        answered: 0,
        refused: false,
        ending,
    }
}

/// Passes so many lines over. None, or why there weren't that many.
fn pass_lines<R: Read>(reader: &mut R, line: &mut Vec<u8>, count: u64) -> Option<Ending>
    ensures { IsPassed count (R.remaining reader.old) (R.remaining reader.new) result }
{
    for _passed in 0..count {
        if let Some(ending) = pass_line(reader, line) {
            return Some(ending);
        }
    }
    None
}

/// Passes one line over. None, or why there was none.
fn pass_line<R: Read>(reader: &mut R, line: &mut Vec<u8>) -> Option<Ending>
    ensures { IsPassedBy result (R.remaining reader.old) (R.remaining reader.new) }
{
    match take_line(reader, line) {
        Taken::Line => None,
        Taken::TooLong => None,
        Taken::End => Some(Ending::Input),
        Taken::Fault => Some(Ending::Read),
    }
}

/// Answers lines, as long as the load goes on.
fn answer_lines<S: Backend, R: Read, W: Write, P: Progress>(
    alloc: Global,
    desk: &mut Desk<S>,
    plan: Plan,
    reader: &mut R,
    line: &mut Vec<u8>,
    output: &mut CountedWriter<'_, W>,
    progress: &mut P,
) -> Loaded
    requires { has_write_failed output.old ≡ false }
    ensures run { Runs S.Store (settings_of S.Store desk.old) plan
        (place_at (R.remaining reader.old) (held_by S.Store desk.old) W.contents output.old false)
        (R.remaining reader.new) (held_by S.Store desk.new) (held_in W.contents output.new)
        result }
    ensures same_writer { HaveOneWriter output.new output.old }
    ensures left { LeavesDesk S.Store desk.old desk.new }
{
    let mut refused = false;
    for count in 0..u64::MAX - plan.passed {
        let number = plan.passed + count + 1;
        match answer_next(
            alloc, desk, reader, line, output, progress, plan.all, number, refused,
        ) {
            Ok(now) => refused = now,
            Err(ending) => {
                return Loaded {
                    answered: count,
                    refused,
                    ending,
                };
            }
        }
        if let Some(ending) = ending_after(output, plan.stop, refused) {
            return Loaded {
                answered: count + 1,
                refused,
                ending,
            };
        }
    }
    Loaded {
        answered: u64::MAX - plan.passed,
        refused,
        ending: Ending::Read,
    }
}

/// Why the load ends after a line, if it does: a write failed, or a line was refused where that is
/// the end.
fn ending_after<W: Write>(
    output: &CountedWriter<'_, W>,
    stop: bool,
    refused: bool,
) -> Option<Ending>
    ensures { result ≡ ending_after (has_write_failed output.now) stop refused }
{
    if output.failed() {
        Some(Ending::Write)
    } else if stop && refused {
        Some(Ending::Refused)
    } else {
        None
    }
}

/// Takes the next line and answers it: whether one was refused so far. Else why there is none.
#[tactic(auto, using(service_core::proofs::LeftLemmas::left_same))]
fn answer_next<S: Backend, R: Read, W: Write, P: Progress>(
    alloc: Global,
    desk: &mut Desk<S>,
    reader: &mut R,
    line: &mut Vec<u8>,
    output: &mut CountedWriter<'_, W>,
    progress: &mut P,
    all: bool,
    number: u64,
    refused: bool,
) -> Result<bool, Ending>
    requires { has_write_failed output.old ≡ false }
    ensures answered { IfOk result (λ now. AnswersLine S.Store (settings_of S.Store desk.old) all number
        (place_at (R.remaining reader.old) (held_by S.Store desk.old) W.contents output.old
        refused)
        (place_at (R.remaining reader.new) (held_by S.Store desk.new) W.contents output.new now)) }
    ensures none { IfErr result (λ ending.
        IsNone ending (R.remaining reader.old) (R.remaining reader.new)
        × (held_by S.Store desk.new ≡ held_by S.Store desk.old) × (output.new ≡ output.old)) }
    ensures same_writer { HaveOneWriter output.new output.old }
    ensures left { LeavesDesk S.Store desk.old desk.new }
{
    match take_line(reader, line) {
        Taken::Line => Ok(answer_text(
            alloc,
            desk,
            output,
            progress,
            all,
            number,
            line.as_slice(),
            refused,
        )),
        Taken::TooLong => Ok(tell(output, progress, all, number, BAD_WORDS, refused)),
        Taken::End => Err(Ending::Input),
        Taken::Fault => Err(Ending::Read),
    }
}

/// Answers a text, and tells its answer: whether one was refused so far.
fn answer_text<S: Backend, W: Write, P: Progress>(
    alloc: Global,
    desk: &mut Desk<S>,
    output: &mut CountedWriter<'_, W>,
    progress: &mut P,
    all: bool,
    number: u64,
    bytes: &[u8],
    refused: bool,
) -> bool
    ensures answered { (text : List ℕ) × LineLeads (settings_of S.Store desk.old)
        (said_by bytes.now) text (tables_of S.Store desk.old) (tables_of S.Store desk.new)
        × Tells W.contents all number text output.old output.new refused result }
    ensures same_writer { HaveOneWriter output.new output.old }
    ensures left { LeavesDesk S.Store desk.old desk.new }
{
    match answer_bytes(alloc, desk, bytes) {
        Ok(text) => tell(output, progress, all, number, text.as_slice(), refused),
        Err(_) => tell(output, progress, all, number, UNAVAILABLE, refused),
    }
}

/// Prints the answer to a line, if it is to be shown: whether one was refused so far.
fn tell<W: Write, P: Progress>(
    output: &mut CountedWriter<'_, W>,
    progress: &mut P,
    all: bool,
    number: u64,
    text: &[u8],
    refused: bool,
) -> bool
    ensures told { Tells W.contents all number text.now output.old output.new refused result }
    ensures same_writer { HaveOneWriter output.new output.old }
{
    put_answer(output, all, number, text);
    progress.told(number, is_done(text));
    refused || is_refused(text)
}
