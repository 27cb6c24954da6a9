//! One message: what it asks for is done, and its reply is put into room that was had before.
//!
//! What owns much is given back by `drop`, whose proof stands once; at the end of its scope it
//! would be taken apart for each function's own proof.
ghost use Rattle.std.specs.Prelude.{◌≡◌, OnErr, OnOk};
ghost use Rattle.route_core.specs.Commands as commands;
ghost use Rattle.service_core.specs.Leaves.{LeavesDesk};
ghost use Rattle.service_core.specs.Seen.{settings_of, tables_of};
ghost use Rattle.service_core.specs.TableSteps.{ask_by};
ghost use Rattle.wire_core.specs.Rooms.{IsEmpty, IsWhole, held_in};
ghost use Rattle.wire_core.specs.Steps.{CommandStepsOn, IsDoneOn, LeavesOn, MessageStepsOn};
ghost use Rattle.wire_core.specs.Steps.{StaysOn};

use crate::replies::is_head;
use crate::room::{Room, put_told, put_unasked, put_unavailable};
use desk_core::Command;
use message_core::Message;
use route_core::{Routes, command_by};
use service_core::Desk;
use std::alloc::{AllocError, Global};
use store_core::Backend;

/// Does what a message asks for and puts its reply into the room. Where that is out of memory,
/// nothing is done and the reply says so.
pub(crate) fn answer_message<S: Backend>(
    alloc: Global,
    routes: Option<&Routes>,
    message: &Message,
    moment: u32,
    desk: &mut Desk<S>,
    room: &mut Room,
)
    requires empty { IsEmpty room.old }
    ensures step { MessageStepsOn (settings_of S.Store desk.old) moment message.now (held_in room.new)
        (tables_of S.Store desk.old) (tables_of S.Store desk.new) }
    ensures whole { IsWhole room.old room.new }
    ensures left { LeavesDesk S.Store desk.old desk.new }
{
    match reply_to(alloc, routes, message, moment, desk, room) {
        Ok(()) => (),
        Err(_) => put_unavailable(is_head(message), room),
    }
}

/// Does what a message asks for, and puts its reply into the room. Out of memory nothing is done,
/// and nothing is put.
#[tactic(auto, using(service_core::proofs::LeftLemmas::left_same))]
fn reply_to<S: Backend>(
    alloc: Global,
    routes: Option<&Routes>,
    message: &Message,
    at: u32,
    desk: &mut Desk<S>,
    room: &mut Room,
) -> Result<(), AllocError>
    requires empty { IsEmpty room.old }
    ensures ok { OnOk result (CommandStepsOn (settings_of S.Store desk.old) at message.now
        (commands.asked_of (settings_of S.Store desk.old) message.now) (held_in room.new)
        (tables_of S.Store desk.old) (tables_of S.Store desk.new)) }
    ensures err { OnErr result ((room.new ≡ room.old)
        × LeavesOn (settings_of S.Store desk.old)
        (commands.asked_of (settings_of S.Store desk.old) message.now)
        (tables_of S.Store desk.old) (tables_of S.Store desk.new)) }
    ensures whole { IsWhole room.old room.new }
    ensures left { LeavesDesk S.Store desk.old desk.new }
{
    let head_only = is_head(message);
    match command_by(alloc, routes, desk.settings(), message)? {
        Ok((caller, command)) => {
            let replied = do_command(alloc, at, caller.as_str(), &command, head_only, desk, room);
            drop(command);
            replied
        }
        Err(unasked) => put_unasked(alloc, head_only, unasked, room),
    }
}

/// Does a command by a caller at a moment, and puts the reply with what came of it into the room.
fn do_command<S: Backend>(
    alloc: Global,
    at: u32,
    caller: &str,
    command: &Command,
    head_only: bool,
    desk: &mut Desk<S>,
    room: &mut Room,
) -> Result<(), AllocError>
    requires empty { IsEmpty room.old }
    ensures ok { OnOk result (IsDoneOn (settings_of S.Store desk.old)
        (ask_by at caller.now command.now) head_only (held_in room.new)
        (tables_of S.Store desk.old) (tables_of S.Store desk.new)) }
    ensures err { OnErr result ((room.new ≡ room.old)
        × StaysOn (settings_of S.Store desk.old)
        (tables_of S.Store desk.old) (tables_of S.Store desk.new)) }
    ensures whole { IsWhole room.old room.new }
    ensures left { LeavesDesk S.Store desk.old desk.new }
{
    match desk.execute_as_text(alloc, at, caller, command) {
        Ok(told) => put_told(alloc, head_only, told, room),
        Err(_) => Err(AllocError),
    }
}
