//! Replies are put into room that was had before.
ghost use Rattle.std.specs.Prelude.{◌≡◌, ◌≤◌, ◌<◌, ◌^◌, [], true, false, IfOk, OnErr, OnOk, length};
ghost use Rattle.desk_texts.specs.Short.{is_short};
ghost use Rattle.desk_texts.specs.Texts.{outcome_text};
ghost use Rattle.message_core.specs.Reply as form;
ghost use Rattle.message_core.specs.Reply.{IsReply, bytes_of};
ghost use Rattle.wire_core.specs.Replies as replies;
ghost use Rattle.wire_core.specs.Replies.{TellsFault};
ghost use Rattle.wire_core.specs.Rooms.{IsEmpty, IsWhole, held_in};

use crate::replies::{outcome_reply, stream_reply, unasked_reply};
use message_core::{Reply, WireFault, answer_bytes, put_reply, unavailable_reply};
use route_core::Unasked;
use service_core::AnswerText;
use std::alloc::{AllocError, Global};
use text_core::Sequence;

/// Room for any short reply, in bytes.
const SHORT_REPLY: usize = 512;

/// A body of fewer bytes makes a short reply.
const SHORT_BODY: usize = 100;

/// Where a reply is put.
#[derive(Drop)]
pub(crate) struct Room {
    /// The reply, but for a text that stands by itself.
    pub(crate) head: Vec<u8>,
    /// The text of a long reply, which isn't copied behind its head.
    pub(crate) text: Sequence<u8>,
    /// Whether a text has to stand with its head.
    joins_body: bool,
}

impl Room {
    /// Room for any short reply.
    pub(crate) fn new(alloc: Global, whole: bool) -> Result<Room, AllocError>
        ensures empty { IfOk result (λ room. IsEmpty room) }
        ensures whole { IfOk result (λ room. room.joins_body ≡ whole) }
    {
        Ok(Room {
            head: Vec::with_capacity(alloc, SHORT_REPLY)?,
            text: Sequence::from(Vec::new(alloc)),
            joins_body: whole,
        })
    }
}

/// Puts the reply with what came of a command into the room. A long one takes memory where its text
/// has to stand with its head.
pub(crate) fn put_told(
    alloc: Global,
    head_only: bool,
    told: AnswerText,
    room: &mut Room,
) -> Result<(), AllocError>
    requires told { told.text.items ≡ outcome_text told.outcome }
    requires short { is_short told.outcome ≡ true → length told.text.items ≤ 64 }
    requires empty { IsEmpty room.old }
    ensures ok { OnOk result
        (held_in room.new ≡ bytes_of (replies.outcome_reply head_only told.outcome)) }
    ensures err { OnErr result ((room.new ≡ room.old) × (is_short told.outcome ≡ false)) }
    ensures whole { IsWhole room.old room.new }
{
    let outcome = told.outcome;
    let reply = outcome_reply(head_only, &outcome, told.text);
    drop(outcome);
    put(alloc, reply, room)
}

/// Puts the reply to a message that asks for no command into the room.
pub(crate) fn put_unasked(
    alloc: Global,
    head_only: bool,
    unasked: Unasked,
    room: &mut Room,
) -> Result<(), AllocError>
    requires empty { IsEmpty room.old }
    ensures ok { OnOk result
        (held_in room.new ≡ bytes_of (replies.unasked_reply head_only unasked)) }
    ensures err { OnErr result (room.new ≡ room.old) }
    ensures whole { IsWhole room.old room.new }
{
    match unasked_reply(alloc, head_only, unasked) {
        Ok(reply) => put(alloc, reply, room),
        Err(_) => Err(AllocError),
    }
}

/// Puts a reply into the room. One with a body of 100 bytes or more takes memory where its text has
/// to stand with its head.
#[tactic(auto, using(message_core::proofs::ReplyLemmas::short_reply))]
fn put(alloc: Global, reply: Reply, room: &mut Room) -> Result<(), AllocError>
    requires reply { IsReply reply }
    requires empty { IsEmpty room.old }
    ensures ok { OnOk result (held_in room.new ≡ bytes_of reply) }
    ensures err { OnErr result ((room.new ≡ room.old) × (100 ≤ length reply.body)) }
    ensures whole { IsWhole room.old room.new }
{
    if reply.body.len() < SHORT_BODY {
        put_reply(&reply, &mut room.head);
        return Ok(());
    }
    if room.joins_body {
        put_whole(alloc, &reply, room)
    } else {
        put_body_apart(reply, room);
        Ok(())
    }
}

/// Puts a reply into the room, whose text stands with its head.
fn put_whole(alloc: Global, reply: &Reply, room: &mut Room) -> Result<(), AllocError>
    requires reply { IsReply reply.now }
    requires empty { IsEmpty room.old }
    ensures ok { OnOk result (held_in room.new ≡ bytes_of reply.now) }
    ensures err { OnErr result (room.new ≡ room.old) }
    ensures whole { room.new.text ≡ [] }
{
    match answer_bytes(alloc, reply) {
        Ok(bytes) => {
            room.head = bytes;
            Ok(())
        }
        Err(_) => Err(AllocError),
    }
}

/// Puts the head of a reply into the room, and behind it the body as it is, if that goes out.
fn put_body_apart(reply: Reply, room: &mut Room)
    requires reply { IsReply reply }
    requires empty { IsEmpty room.old }
    requires length { length reply.body < 2 ^ 64 }
    ensures { held_in room.new ≡ bytes_of reply }
{
    let head_only = reply.head_only;
    let head = Reply {
        status: reply.status,
        allow: reply.allow,
        body: reply.body,
        head_only: true,
    };
    put_reply(&head, &mut room.head);
    if !head_only {
        room.text = head.body;
    }
}

/// Puts the reply that tells why a stream has no message into the room; where that was out of
/// memory, the one that nothing was done.
pub(crate) fn put_stream_fault(alloc: Global, fault: WireFault, room: &mut Room)
    requires empty { IsEmpty room.old }
    ensures told { TellsFault fault (held_in room.new) }
    ensures whole { IsWhole room.old room.new }
{
    if fault == WireFault::NoMemory {
        put_unavailable(false, room);
    } else {
        match put_stream_reply(alloc, fault, room) {
            Ok(()) => (),
            Err(_) => put_unavailable(false, room),
        }
    }
}

fn put_stream_reply(alloc: Global, fault: WireFault, room: &mut Room) -> Result<(), AllocError>
    requires empty { IsEmpty room.old }
    ensures ok { OnOk result (held_in room.new ≡ bytes_of (replies.stream_reply fault)) }
    ensures err { OnErr result (room.new ≡ room.old) }
    ensures whole { IsWhole room.old room.new }
{
    match stream_reply(alloc, fault) {
        Ok(reply) => put(alloc, reply, room),
        Err(_) => Err(AllocError),
    }
}

/// Puts the reply into the room that nothing was done, since it was out of memory.
pub(crate) fn put_unavailable(head_only: bool, room: &mut Room)
    requires empty { IsEmpty room.old }
    ensures put { held_in room.new ≡ bytes_of (form.unavailable head_only) }
    ensures whole { room.new.text ≡ [] }
{
    room.head
        .extend_from_slice(unavailable_reply(head_only))
        .unwrap();
}
