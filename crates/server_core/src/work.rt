//! The turn of one connection.
ghost use Rattle.std.specs.Prelude.{◌≡◌, ◌≢◌, ◌<◌, ℕ, Bool, false, true, List, Option};
ghost use Rattle.std.specs.Prelude.{is_some, length};
ghost use Rattle.connection_core.specs.Machine.{passed};
ghost use Rattle.connection_core.specs.Seen.{seen};
ghost use Rattle.server_core.specs.Calls.{Adds, Io, at_place};
ghost use Rattle.server_core.specs.Reads.{ReadsOnce, WritesOnce, listens};
ghost use Rattle.server_core.specs.Works.{HasReadAt, HasWrittenAt, WorksAt};
ghost use Rattle.server_core.specs.Turns.{Answered, IsDone, IsSettled, Moves, TakesTurn, at_minute, logged};

use crate::desk::Desk;
use crate::host::{Host, Readiness};
use crate::slot::{Slot, read_some, write_some};
use connection_core::{Connection, Framing, Phase};
use std::alloc::Global;

/// When a turn is: milliseconds from some moment on, and the minute since 1970-01-01 00:00 UTC.
#[derive(Clone, Copy)]
pub struct Moment {
    pub now: u64,
    pub minute: u32,
}

/// Reads once, if something may have come that is still looked at.
#[tactic(auto, using(crate::proofs::TurnLemmas::moves_none, crate::proofs::StreamLemmas::moves_read, crate::proofs::ReadLemmas::reads_none))]
fn receive<F: Framing, H: Host>(
    alloc: Global,
    host: &mut H,
    place: usize,
    slot: &mut Slot<H::Stream>,
    mark: &mut Readiness,
    buffer: &mut [u8],
)
    requires { 0 < length buffer.old }
    ensures moves { (now : ℕ) → Moves F.States now (seen slot.old.connection)
        (seen slot.new.connection) }
    ensures read { (ios : List Io)
        × Adds (H.calls host.old) (H.calls host.new) (at_place place ios)
        × ReadsOnce mark.old (listens (seen slot.old.connection).phase) ios mark.new
        × HasReadAt F.States H.remaining ios slot.old.stream (seen slot.old.connection)
        slot.new.stream (seen slot.new.connection) }
    ensures deaf { listens (seen slot.old.connection).phase ≡ false
        → (seen slot.new.connection ≡ seen slot.old.connection) × (mark.new ≡ mark.old) }
    ensures told { H.told host.new ≡ H.told host.old }
{
    match slot.connection.phase() {
        Phase::Reading(_) | Phase::Lingering => {
            if mark.readable {
                if let Some(stream) = &mut slot.stream {
                    read_some::<F, H>(
                        alloc,
                        host,
                        place,
                        stream,
                        &mut slot.connection,
                        mark,
                        buffer,
                    );
                }
            }
        }
        Phase::Ready | Phase::Writing | Phase::Closed => {}
    }
}

/// Answers the message of a connection, if it is whole and may be answered.
#[tactic(auto, using(crate::proofs::TurnLemmas::moves_none, crate::proofs::TurnLemmas::turn_quiet, crate::proofs::TurnLemmas::turn_answered))]
fn answer<H: Host, D: Desk>(
    alloc: Global,
    host: &mut H,
    moment: Moment,
    connection: &mut Connection,
    desk: &mut D,
    may: bool,
) -> bool
    ensures turn { (a : Option Answered) × (is_some a ≡ result)
        × TakesTurn D.States (logged (at_minute moment.minute D.Steps)) moment.now a
        (seen connection.old) (desk.old, H.told host.old) (seen connection.new) (desk.new, H.told host.new) }
    ensures asked { result ≡ true → may ≡ true }
    ensures unready { may ≡ true → (seen connection.new).phase ≢ Phase.Ready }
    ensures stays { (seen connection.old).phase ≢ Phase.Ready → connection.new ≡ connection.old }
    ensures writes { result ≡ true → (seen connection.new).phase ≡ Phase.Writing }
    ensures calls { H.calls host.new ≡ H.calls host.old }
{
    if !may {
        return false;
    }
    match connection.phase() {
        Phase::Ready => {}
        _ => return false,
    }
    let began = host.micros();
    let answer = desk.step(alloc, moment.minute, connection.message());
    let micros = host.micros().saturating_sub(began);
    let bytes = answer.reply.bytes().len() as u64;
    host.log(moment.minute, answer.note.as_slice(), bytes, micros);
    connection.answer(alloc, answer.reply, moment.now);
    true
}

/// Tells the peer that no more comes, where the reply has gone out.
fn shut_if_written<H: Host>(host: &mut H, slot: &Slot<H::Stream>)
    ensures told { H.told host.new ≡ H.told host.old }
    ensures calls { H.calls host.new ≡ H.calls host.old }
{
    if let Phase::Lingering = slot.connection.phase() {
        if let Some(stream) = &slot.stream {
            host.shut(stream);
        }
    }
}

/// Drops the connection if its deadline has come, and its stream where it is over.
fn finish<S: Drop>(alloc: Global, slot: &mut Slot<S>, now: u64)
    ensures { seen slot.new.connection ≡ passed (seen slot.old.connection) now }
{
    slot.connection.pass(alloc, now);
    if let Phase::Closed = slot.connection.phase() {
        slot.stream = None;
    }
}

/// One write to its stream.
#[tactic(auto, using(crate::proofs::TurnLemmas::moves_none))]
fn write_at<F: Framing, H: Host>(
    alloc: Global,
    host: &mut H,
    place: usize,
    slot: &mut Slot<H::Stream>,
    mark: &mut Readiness,
    now: u64,
)
    requires marked { mark.old.writable ≡ true }
    requires writing { (seen slot.old.connection).phase ≡ Phase.Writing }
    ensures moves { Moves F.States now (seen slot.old.connection) (seen slot.new.connection) }
    ensures written { (ios : List Io)
        × Adds (H.calls host.old) (H.calls host.new) (at_place place ios)
        × WritesOnce mark.old (seen slot.old.connection).phase ios mark.new
        × HasWrittenAt now H.contents ios slot.old.stream (seen slot.old.connection)
        slot.new.stream (seen slot.new.connection) }
    ensures told { H.told host.new ≡ H.told host.old }
{
    if let Some(stream) = &mut slot.stream {
        write_some::<H>(alloc, host, place, stream, &mut slot.connection, mark, now);
    }
}

/// Writes once, if something is left to write and may be taken.
#[tactic(auto, using(crate::proofs::TurnLemmas::moves_none, crate::proofs::TurnLemmas::writing_unready, crate::proofs::ReadLemmas::writes_none))]
fn send<F: Framing, H: Host>(
    alloc: Global,
    host: &mut H,
    place: usize,
    slot: &mut Slot<H::Stream>,
    mark: &mut Readiness,
    now: u64,
)
    ensures moves { Moves F.States now (seen slot.old.connection) (seen slot.new.connection) }
    ensures unready { (seen slot.old.connection).phase ≢ Phase.Ready
        → (seen slot.new.connection).phase ≢ Phase.Ready }
    ensures told { H.told host.new ≡ H.told host.old }
    ensures written { (ios : List Io)
        × Adds (H.calls host.old) (H.calls host.new) (at_place place ios)
        × WritesOnce mark.old (seen slot.old.connection).phase ios mark.new }
{
    match slot.connection.phase() {
        Phase::Writing => {
            if mark.writable {
                write_at::<F, H>(alloc, host, place, slot, mark, now);
                shut_if_written(host, slot);
            }
        }
        Phase::Reading(_) | Phase::Ready | Phase::Lingering | Phase::Closed => {}
    }
}

/// Where the reply has gone out, what still waits is read and dropped, once. Where nothing does, and
/// the message was whole, the connection is over.
#[tactic(auto, using(crate::proofs::TurnLemmas::moves_none, crate::proofs::TurnLemmas::moves_settled, crate::proofs::TurnLemmas::settled_settled, crate::proofs::TurnLemmas::settled_unready, crate::proofs::ReadLemmas::settles_none))]
fn settle<F: Framing, H: Host>(
    alloc: Global,
    host: &mut H,
    place: usize,
    slot: &mut Slot<H::Stream>,
    mark: &mut Readiness,
    buffer: &mut [u8],
)
    requires { 0 < length buffer.old }
    ensures read { (ios : List Io)
        × Adds (H.calls host.old) (H.calls host.new) (at_place place ios)
        × (lingering : Bool) × ReadsOnce mark.old lingering ios mark.new }
    ensures told { H.told host.new ≡ H.told host.old }
    ensures moves { (now : ℕ) → Moves F.States now (seen slot.old.connection)
        (seen slot.new.connection) }
    ensures settled { IsSettled (seen slot.new.connection) }
    ensures unready { (seen slot.old.connection).phase ≢ Phase.Ready
        → (seen slot.new.connection).phase ≢ Phase.Ready }
{
    match slot.connection.phase() {
        Phase::Lingering => {
            receive::<F, H>(alloc, host, place, slot, mark, buffer);
            slot.connection.settle(alloc);
        }
        Phase::Reading(_) | Phase::Ready | Phase::Writing | Phase::Closed => {}
    }
}

/// One connection's turn: it reads, its message is answered if it may be, and it writes; then it is
/// over, if its reply has gone out and nothing waits, or dropped if its deadline has come. Whether its
/// message was answered.
#[tactic(auto, using(crate::proofs::TurnLemmas::moves_both, crate::proofs::TurnLemmas::moves_passed, crate::proofs::TurnLemmas::turn_within, crate::proofs::TurnLemmas::passed_unready, crate::proofs::TurnLemmas::passed_done))]
pub(crate) fn work<H: Host, D: Desk>(
    alloc: Global,
    host: &mut H,
    moment: Moment,
    buffer: &mut [u8],
    place: usize,
    slot: &mut Slot<H::Stream>,
    mark: &mut Readiness,
    desk: &mut D,
    may: bool,
) -> bool
    requires { 0 < length buffer.old }
    ensures works { (ios : List Io)
        × Adds (H.calls host.old) (H.calls host.new) (at_place place ios)
        × WorksAt mark.old (seen slot.old.connection) result ios mark.new }
    ensures turn { (a : Option Answered) × (is_some a ≡ result)
        × TakesTurn D.States (logged (at_minute moment.minute D.Steps)) moment.now a
        (seen slot.old.connection) (desk.old, H.told host.old) (seen slot.new.connection) (desk.new, H.told host.new) }
    ensures asked { result ≡ true → may ≡ true }
    ensures unready { may ≡ true → (seen slot.new.connection).phase ≢ Phase.Ready }
    ensures done { IsDone moment.now (seen slot.new.connection) }
{
    receive::<D, H>(alloc, host, place, slot, mark, buffer);
    let answered = answer(alloc, host, moment, &mut slot.connection, desk, may);
    send::<D, H>(alloc, host, place, slot, mark, moment.now);
    settle::<D, H>(alloc, host, place, slot, mark, buffer);
    finish(alloc, slot, moment.now);
    answered
}
