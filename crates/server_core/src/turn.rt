//! One turn of the server: each connection has its own.
ghost use Rattle.std.specs.Prelude.{◌≡◌, ◌≢◌, ◌≤◌, ◌<◌, length};
ghost use Rattle.server_core.specs.Places.{Each, TurnsOf, conns};
ghost use Rattle.server_core.specs.Turns.{IsDone, at_minute, logged};

use crate::desk::Desk;
use crate::host::{Host, Readiness};
use crate::slot::Slot;
use crate::work::{Moment, work};
use connection_core::Phase;
use std::alloc::Global;

/// One turn: each connection has its own, in the order of their places, and at most so many
/// messages are answered. How many were.
pub(crate) fn turn<H: Host, D: Desk>(
    alloc: Global,
    host: &mut H,
    moment: Moment,
    buffer: &mut [u8],
    slots: &mut [Slot<H::Stream>],
    marks: &mut [Readiness],
    desk: &mut D,
    most: u64,
) -> u64
    requires marks { length slots.old ≤ length marks.old }
    requires buffer { 0 < length buffer.old }
    ensures turns { TurnsOf D.States (logged (at_minute moment.minute D.Steps))
        (H.calls host.old) (H.calls host.new) moment.now
        marks.old (conns slots.old) (desk.old, H.told host.old)
        marks.new (conns slots.new) (desk.new, H.told host.new) result }
    ensures most { result ≤ most }
    ensures unready { result < most → Each (λ c. c.phase ≢ Phase.Ready) (conns slots.new) }
    ensures done { Each (IsDone moment.now) (conns slots.new) }
{
    let mut answered = 0u64;
    for place in 0..slots.len() {
        let slot = &mut slots[place];
        let mark = &mut marks[place];
        if work(
            alloc,
            host,
            moment,
            buffer,
            place,
            slot,
            mark,
            desk,
            answered < most,
        ) {
            answered += 1;
        }
    }
    answered
}
