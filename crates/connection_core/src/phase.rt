//! How far a connection has come.
ghost use Rattle.std.specs.Prelude.{◌≡◌};
ghost use Rattle.connection_core.specs.Machine.{Moves, MovesOn};
ghost use Rattle.connection_core.specs.Machine as machine;

use crate::framing::Framing;

/// How far a message has come that isn't whole.
#[derive(Clone, Copy, Debug, PartialEq, Eq)]
pub enum Part {
    /// Nothing but line ends has come.
    Blank,
    /// A line of the head has begun.
    Line,
    /// A line of the head has just ended.
    Start,
    /// After it came a carriage return.
    Return,
    /// So many bytes of the body are missing.
    Body(u32),
}

/// What a connection does.
#[derive(Clone, Copy, Debug, PartialEq, Eq)]
pub enum Phase {
    /// It takes the bytes of its message.
    Reading(Part),
    /// Its message is whole, and waits for the answer.
    Ready,
    /// Its reply is written.
    Writing,
    /// Its reply has gone out whole. What still comes is dropped for a while.
    Lingering,
    /// It is over.
    Closed,
}

/// The most bytes of a head.
pub(crate) const MAX_HEAD: usize = 8_192;

fn is_line_end(byte: u8) -> bool
    ensures { result ≡ machine.is_line_end byte }
{
    byte == b'\n' || byte == b'\r'
}

/// The part after one more byte of the head; none where the byte ends it.
pub(crate) fn head_after(part: Part, byte: u8) -> Option<Part>
    ensures { result ≡ machine.head_after part byte }
{
    match part {
        Part::Blank => {
            if is_line_end(byte) {
                Some(Part::Blank)
            } else {
                Some(Part::Line)
            }
        }
        Part::Line => {
            if byte == b'\n' {
                Some(Part::Start)
            } else {
                Some(Part::Line)
            }
        }
        Part::Start => {
            if byte == b'\n' {
                None
            } else if byte == b'\r' {
                Some(Part::Return)
            } else {
                Some(Part::Line)
            }
        }
        Part::Return => {
            if byte == b'\n' {
                None
            } else {
                Some(Part::Line)
            }
        }
        Part::Body(missing) => Some(Part::Body(missing)),
    }
}

/// So many bytes of the body are missing.
fn awaiting(missing: u32) -> Phase
    ensures { result ≡ machine.awaiting missing }
{
    if missing == 0 {
        Phase::Ready
    } else {
        Phase::Reading(Part::Body(missing))
    }
}

/// The phase after one more byte of the message, which is the last of those that came, and whether
/// more than the message may follow. Where that byte ends the head, the framing tells what the head
/// states.
pub(crate) fn phase_after<F: Framing>(part: Part, byte: u8, came: &[u8]) -> (Phase, bool)
    ensures { Moves F.States part byte came.now result.0 result.1 }
{
    match part {
        Part::Body(missing) => (awaiting(missing.saturating_sub(1)), false),
        _ => head_phase::<F>(head_after(part, byte), came),
    }
}

/// The same of a head, by the part after that byte.
fn head_phase<F: Framing>(part: Option<Part>, came: &[u8]) -> (Phase, bool)
    ensures { MovesOn F.States part came.now result.0 result.1 }
{
    match part {
        None => match F::stated(came) {
            Some(missing) => (awaiting(missing), false),
            None => (Phase::Ready, true),
        },
        Some(next) => {
            if came.len() < MAX_HEAD {
                (Phase::Reading(next), false)
            } else {
                (Phase::Ready, true)
            }
        }
    }
}
