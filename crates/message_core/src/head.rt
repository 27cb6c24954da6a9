//! The head of a message is taken from a reader, and nothing after it.
ghost use Rattle.std.specs.Prelude.{◌≡◌, ◌≢◌, ◌≤◌, ◌+◌, ◌||◌, ◌∷◌, [], ℕ, IfOk, IfErr, IfSome};
ghost use Rattle.std.specs.Prelude.{None, Err, true};
ghost use Rattle.std.specs.Io.KnownBytes.{Consumes, IsAtEnd, Keeps};
ghost use Rattle.httparse.specs.Grammar.{HasNoRequest};
ghost use Rattle.httparse.specs.Spans.{RequestOverflows};
ghost use Rattle.stream_core.specs.Seen.{HaveOneReader, has_read_failed, left_in, reads_of};
ghost use Rattle.stream_core.specs.Streams.{ConsumesAtMost};
ghost use Rattle.message_core.specs.Fault.{tells_failed_read};
ghost use Rattle.message_core.specs.Head.{HasLimitedHead, IsHead, LacksHead, are_line_ends};
ghost use Rattle.message_core.specs.Head.{is_line_end};

use crate::fault::WireFault;
use httparse::spans::{EMPTY_HEADER_SPAN, parse_request};
use httparse::{Error, Status};
use std::alloc::Global;
use std::io::Read;
use stream_core::CountedReader;

/// The most bytes of a head.
const MAX_HEAD: u32 = 8_192;

/// The most header lines of a head.
const MAX_LINES: usize = 32;

/// How many header lines are looked at: a head with more than 32, and no more than these, is
/// refused where it ends.
const LINES_READ: usize = 64;

/// Which bytes stand at the front of a stream. Empty lines may stand before a head.
#[derive(Clone, Copy)]
enum HeadSoFar {
    /// Empty lines alone, or nothing.
    Empty,
    /// Empty lines, and a carriage return after them.
    Returned,
    /// Other bytes are among them.
    Begun,
}

impl HeadSoFar {
    /// The front with a byte more.
    fn with(self, byte: u8) -> HeadSoFar
        ensures { result ≢ HeadSoFar.Begun → (self ≢ HeadSoFar.Begun) × (is_line_end byte ≡ true) }
    {
        match self {
            HeadSoFar::Empty => {
                match byte {
                    b'\n' => HeadSoFar::Empty,
                    b'\r' => HeadSoFar::Returned,
                    _ => HeadSoFar::Begun,
                }
            }
            HeadSoFar::Returned => {
                match byte {
                    b'\n' => HeadSoFar::Empty,
                    _ => HeadSoFar::Begun,
                }
            }
            HeadSoFar::Begun => HeadSoFar::Begun,
        }
    }
}

/// How bytes at the front of a stream stand to a head of at most 32 header lines.
#[derive(Clone, Copy)]
enum HeadStatus {
    /// They begin with one.
    Whole,
    /// They don't, and more may follow.
    Unfinished,
    /// They don't, whatever follows.
    Refused,
    /// They don't, whatever follows: there are more lines than are looked at.
    Crowded,
}

/// How the bytes stand to a head.
fn head_status(bytes: &[u8]) -> HeadStatus
    ensures whole { result ≡ HeadStatus.Whole → HasLimitedHead bytes.now }
    ensures unfinished { result ≡ HeadStatus.Unfinished → HasNoRequest bytes.now }
    ensures refused { result ≡ HeadStatus.Refused → RequestOverflows 32 bytes.now }
    ensures crowded { result ≡ HeadStatus.Crowded → RequestOverflows 32 bytes.now }
{
    let mut lines = [EMPTY_HEADER_SPAN; LINES_READ];
    match parse_request(bytes, &mut lines) {
        Ok(Status::Complete(spans)) => {
            if spans.headers <= MAX_LINES {
                HeadStatus::Whole
            } else {
                HeadStatus::Refused
            }
        }
        Ok(Status::Partial) => HeadStatus::Unfinished,
        Err(Error::TooManyHeaders) => HeadStatus::Crowded,
        Err(_) => HeadStatus::Refused,
    }
}

/// The same of the bytes of this front. Empty lines alone aren't read again.
#[tactic(auto, using(crate::proofs::HeadLemmas::no_head_in_ends))]
fn standing_after(front: HeadSoFar, bytes: &[u8]) -> HeadStatus
    requires { front ≢ HeadSoFar.Begun → are_line_ends bytes.now ≡ true }
    ensures whole { result ≡ HeadStatus.Whole → HasLimitedHead bytes.now }
    ensures unfinished { result ≡ HeadStatus.Unfinished → HasNoRequest bytes.now }
    ensures refused { result ≡ HeadStatus.Refused → RequestOverflows 32 bytes.now }
    ensures crowded { result ≡ HeadStatus.Crowded → RequestOverflows 32 bytes.now }
{
    match front {
        HeadSoFar::Empty => HeadStatus::Unfinished,
        HeadSoFar::Returned | HeadSoFar::Begun => head_status(bytes),
    }
}

/// The next byte of the reader, by one read, or none at its end.
fn next_byte<R: Read>(reader: &mut CountedReader<'_, R>) -> Result<Option<u8>, WireFault>
    ensures one { HaveOneReader reader.new reader.old }
    ensures byte { IfOk result (λ next. IfSome next (λ b.
        Consumes (left_in R.remaining reader.old) (left_in R.remaining reader.new) (b ∷ []))) }
    ensures end { IfOk result (λ next. next ≡ None
        → Consumes (left_in R.remaining reader.old) (left_in R.remaining reader.new) []
        × IsAtEnd (left_in R.remaining reader.new)) }
    ensures err { IfErr result (λ fault. (fault ≡ WireFault.Read)
        × Keeps (left_in R.remaining reader.old) (left_in R.remaining reader.new)) }
    ensures taken { ConsumesAtMost (left_in R.remaining reader.old)
        (left_in R.remaining reader.new) 1 }
    ensures failed { has_read_failed reader.new
        ≡ (tells_failed_read result || has_read_failed reader.old) }
    ensures reads { reads_of reader.new ≤ reads_of reader.old + 1 }
{
    let mut byte = [0u8; 1];
    match reader.read(&mut byte) {
        Ok(0) => Ok(None),
        Ok(_) => Ok(Some(byte[0])),
        Err(_) => Err(WireFault::Read),
    }
}

/// The bytes of the head at the front of what the reader has left. It is read byte by byte up to
/// its last one, so nothing after it is taken. A stream without a head is told after the line feed
/// that shows it, after 8,192 bytes, or at its end.
pub(crate) fn take_head<R: Read>(
    alloc: Global,
    reader: &mut CountedReader<'_, R>,
) -> Result<Vec<u8>, WireFault>
    ensures one { HaveOneReader reader.new reader.old }
    ensures head { IfOk result (λ taken. IsHead taken.items
        × Consumes (left_in R.remaining reader.old) (left_in R.remaining reader.new) taken.items) }
    ensures lacks { result ≡ Err WireFault.BadHead
        → LacksHead (left_in R.remaining reader.old) (left_in R.remaining reader.new) }
    ensures kinds { IfErr result (λ fault. fault ≢ WireFault.BadHead
        → fault ≢ WireFault.Read → fault ≡ WireFault.NoMemory) }
    ensures taken { ConsumesAtMost (left_in R.remaining reader.old)
        (left_in R.remaining reader.new) 8192 }
    ensures failed { has_read_failed reader.new
        ≡ (tells_failed_read result || has_read_failed reader.old) }
    ensures reads { reads_of reader.new ≤ reads_of reader.old + 8192 }
{
    let mut taken = Vec::new(alloc);
    let mut front = HeadSoFar::Empty;
    let mut crowded = false;
    for _turn in 0..MAX_HEAD {
        let Some(byte) = next_byte(reader)? else {
            return Err(WireFault::BadHead);
        };
        taken.push(byte).map_err(|_| WireFault::NoMemory)?;
        front = front.with(byte);
        if byte == b'\n' && !crowded {
            match standing_after(front, taken.as_slice()) {
                HeadStatus::Whole => return Ok(taken),
                HeadStatus::Unfinished => {}
                HeadStatus::Refused => return Err(WireFault::BadHead),
                HeadStatus::Crowded => crowded = true,
            }
        }
    }
    Err(WireFault::BadHead)
}
