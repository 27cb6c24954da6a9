//! One message is read, what it asks for is done, and one reply is written.
ghost use Rattle.std.specs.Prelude.{◌≡◌, ◌++◌, false, Err, IfOk, OnErr};
ghost use Rattle.stream_core.specs.Seen.{has_write_failed, left_in};
ghost use Rattle.stream_core.specs.Streams.{ConsumesAtMost};
ghost use Rattle.stream_core.specs.Written.{Prints};
ghost use Rattle.service_core.specs.Leaves.{LeavesDesk, LeavesWriter};
ghost use Rattle.service_core.specs.Seen.{settings_of, tables_of};
ghost use Rattle.wire_core.specs.Counted.{TellsReads};
ghost use Rattle.wire_core.specs.Fault.{is_unread, tells_failed_read, tells_failed_write};
ghost use Rattle.wire_core.specs.Rooms.{IsEmpty, IsWhole};
ghost use Rattle.wire_core.specs.Served.{HasRoomOrLeft, IsAnswer, IsSent, IsServed, IsServedBy};
ghost use Rattle.wire_core.specs.Served.{TellsRead, reply_in};

use crate::fault::{ServeFault, Unanswered};
use crate::room::{Room, put_stream_fault};
use crate::step::answer_message;
use message_core::{WireFault, read_message_counted, unavailable_reply};
use route_core::Routes;
use service_core::Desk;
use std::alloc::Global;
use std::io::{Read, Write};
use store_core::Backend;
use stream_core::{CountedReader, CountedWriter};

/// Reads one message, does what it asks for at the moment, in minutes since 1970-01-01 00:00 UTC,
/// and writes one reply. Nothing after the message is read, and at most 73,728 bytes are.
///
/// Where a step is out of memory nothing is done and the reply is `refused 16 Unavailable`, for
/// which no memory is needed; so `NoMemory` is never answered. `Read` where a read failed: nothing
/// is written, and nothing is done. `Write` where a write failed: a part of the reply went out,
/// which lacks a byte or more, and what the message asked for stands.
///
/// A head is read a byte at a time, so a reader that asks a system each time should stand behind a
/// buffer.
pub fn serve_one<R: Read, W: Write, S: Backend>(
    alloc: Global,
    reader: &mut R,
    writer: &mut W,
    moment: u32,
    desk: &mut Desk<S>,
) -> Result<(), ServeFault>
    ensures served { IsServed (settings_of S.Store desk.old) moment
        (R.remaining reader.old) (R.remaining reader.new)
        (W.contents writer.old) (W.contents writer.new) result
        (tables_of S.Store desk.old) (tables_of S.Store desk.new) }
    ensures untouched { result ≡ Err ServeFault.Read → desk.new ≡ desk.old }
    ensures taken { ConsumesAtMost (R.remaining reader.old) (R.remaining reader.new) 73728 }
    ensures left { LeavesDesk S.Store desk.old desk.new }
{
    let mut reader = CountedReader::new(reader);
    let mut output = CountedWriter::new(writer);
    serve_one_counted(alloc, None, &mut reader, &mut output, moment, desk)
}

/// Serves one message as `serve_one` does, by a router, if there is one, which a server has made once;
/// by a reader that counts, and a writer that counts and hasn't failed. `Read` is answered exactly where a read failed, and `Write` exactly where a write
/// failed. At most 73,728 reads are made, and at most as many writes as the reply has bytes.
pub fn serve_one_counted<R: Read, W: Write, S: Backend>(
    alloc: Global,
    routes: Option<&Routes>,
    reader: &mut CountedReader<'_, R>,
    output: &mut CountedWriter<'_, W>,
    moment: u32,
    desk: &mut Desk<S>,
) -> Result<(), ServeFault>
    requires { has_write_failed output.old ≡ false }
    ensures reader { TellsReads R.remaining 73728 (tells_failed_read result) reader.old reader.new }
    ensures writer { LeavesWriter (tells_failed_write result) output.old output.new }
    ensures served { IsServedBy W.contents (tables_of S.Store) (settings_of S.Store desk.old) moment
        (left_in R.remaining reader.old) (left_in R.remaining reader.new) output.old output.new
        result desk.old desk.new }
    ensures left { LeavesDesk S.Store desk.old desk.new }
{
    let answer = answer_counted(alloc, routes, false, reader, moment, desk);
    send_answer(output, answer)
}

/// Writes the reply, or the one that there was no memory for it; nothing where a read failed.
fn send_answer<W: Write>(
    output: &mut CountedWriter<'_, W>,
    answer: Result<Room, Unanswered>,
) -> Result<(), ServeFault>
    requires { has_write_failed output.old ≡ false }
    ensures writer { LeavesWriter (tells_failed_write result) output.old output.new }
    ensures sent { IsSent W.contents output.old output.new (reply_in answer) result }
    ensures unread { tells_failed_read result ≡ is_unread answer }
{
    match answer {
        Ok(room) => send(output, room.head.as_slice(), room.text.as_slice()),
        Err(Unanswered::NoRoom) => send(output, unavailable_reply(false), &[]),
        Err(Unanswered::Unread) => Err(ServeFault::Read),
    }
}

/// Writes the bytes of a head, and behind them those of a text.
fn send<W: Write>(
    output: &mut CountedWriter<'_, W>,
    head: &[u8],
    text: &[u8],
) -> Result<(), ServeFault>
    requires { has_write_failed output.old ≡ false }
    ensures writer { LeavesWriter (tells_failed_write result) output.old output.new }
    ensures printed { Prints W.contents output.old output.new (head.now ++ text.now) }
    ensures kinds { OnErr result (result ≡ Err ServeFault.Write) }
{
    output.put(head);
    output.put(text);
    if output.failed() {
        Err(ServeFault::Write)
    } else {
        Ok(())
    }
}

/// The reply to the message with which a reader's stream begins, after what it asks for is done;
/// whether its text has to stand with its head is told. There is room for a short reply before a
/// byte is read: `NoRoom` where there isn't, and `Unread` where a read failed; nothing is done then.
#[tactic(auto, using(service_core::proofs::LeftLemmas::left_same))]
pub(crate) fn answer_counted<R: Read, S: Backend>(
    alloc: Global,
    routes: Option<&Routes>,
    whole: bool,
    reader: &mut CountedReader<'_, R>,
    moment: u32,
    desk: &mut Desk<S>,
) -> Result<Room, Unanswered>
    ensures reader { TellsReads R.remaining 73728 (is_unread result) reader.old reader.new }
    ensures answered { IsAnswer (settings_of S.Store desk.old) moment
        (left_in R.remaining reader.old) (left_in R.remaining reader.new) (reply_in result)
        (tables_of S.Store desk.old) (tables_of S.Store desk.new) }
    ensures given { HasRoomOrLeft whole result desk.old desk.new }
    ensures left { LeavesDesk S.Store desk.old desk.new }
{
    match Room::new(alloc, whole) {
        Ok(room) => answer_in_room(alloc, routes, reader, moment, desk, room),
        Err(_) => Err(Unanswered::NoRoom),
    }
}

/// The same, once there is room for a short reply.
#[tactic(auto, using(service_core::proofs::LeftLemmas::left_same))]
fn answer_in_room<R: Read, S: Backend>(
    alloc: Global,
    routes: Option<&Routes>,
    reader: &mut CountedReader<'_, R>,
    moment: u32,
    desk: &mut Desk<S>,
    room: Room,
) -> Result<Room, Unanswered>
    requires empty { IsEmpty room }
    ensures reader { TellsReads R.remaining 73728 (is_unread result) reader.old reader.new }
    ensures answered { IsAnswer (settings_of S.Store desk.old) moment
        (left_in R.remaining reader.old) (left_in R.remaining reader.new) (reply_in result)
        (tables_of S.Store desk.old) (tables_of S.Store desk.new) }
    ensures given { HasRoomOrLeft room.joins_body result desk.old desk.new }
    ensures left { LeavesDesk S.Store desk.old desk.new }
{
    let mut room = room;
    match read_message_counted(alloc, reader) {
        Ok(message) => {
            answer_message(alloc, routes, &message, moment, desk, &mut room);
            Ok(room)
        }
        Err(fault) => tell_fault(alloc, fault, room),
    }
}

/// The reply that tells why a stream has no message; there is none where a read failed.
fn tell_fault(alloc: Global, fault: WireFault, room: Room) -> Result<Room, Unanswered>
    requires empty { IsEmpty room }
    ensures told { TellsRead fault (reply_in result) }
    ensures whole { IfOk result (λ answer. IsWhole room answer) }
{
    if fault == WireFault::Read {
        return Err(Unanswered::Unread);
    }
    let mut room = room;
    put_stream_fault(alloc, fault, &mut room);
    Ok(room)
}
