//! What was read elsewhere is answered.
ghost use Rattle.std.specs.Prelude.{◌≡◌, IfOk, Ok, OnErr};
ghost use Rattle.service_core.specs.Leaves.{LeavesDesk};
ghost use Rattle.service_core.specs.Seen.{settings_of, tables_of};
ghost use Rattle.wire_core.specs.Replies.{TellsFault};
ghost use Rattle.wire_core.specs.Steps.{ReadStepsOn};

use crate::room::{Room, put_stream_fault};
use crate::step::answer_message;
use message_core::{Message, WireFault};
use route_core::Routes;
use service_core::Desk;
use std::alloc::{AllocError, Global};
use store_core::Backend;

/// Does what a message asks for that was read elsewhere, at the moment, in minutes since 1970-01-01
/// 00:00 UTC: the bytes of its reply. `AllocError` where there was no memory for a reply, and then
/// nothing is done.
pub fn answer_request<S: Backend>(
    alloc: Global,
    routes: Option<&Routes>,
    message: &Message,
    moment: u32,
    desk: &mut Desk<S>,
) -> Result<Vec<u8>, AllocError>
    ensures reply { IfOk result (λ out. ReadStepsOn (settings_of S.Store desk.old) moment
        (Ok message.now) out.items (tables_of S.Store desk.old) (tables_of S.Store desk.new)) }
    ensures err { OnErr result (desk.new ≡ desk.old) }
    ensures left { LeavesDesk S.Store desk.old desk.new }
{
    let mut room = Room::new(alloc, true)?;
    answer_message(alloc, routes, message, moment, desk, &mut room);
    Ok(room.head)
}

/// The bytes of the reply that tells why bytes are no message, or that there was no memory for one.
pub fn answer_fault(alloc: Global, fault: WireFault) -> Result<Vec<u8>, AllocError>
    ensures { IfOk result (λ out. TellsFault fault out.items) }
{
    let mut room = Room::new(alloc, true)?;
    put_stream_fault(alloc, fault, &mut room);
    Ok(room.head)
}
