//! A list of messages, served one after the other.
ghost use Rattle.std.specs.Prelude.{◌≡◌, IfOk, OnErr};
ghost use Rattle.service_core.specs.Leaves.{LeavesDesk};
ghost use Rattle.service_core.specs.Seen.{settings_of, tables_of};
ghost use Rattle.wire_core.specs.Runs.{IsReplyOver, RepliesOn, RunsMessagesOn, RunsOver};
ghost use Rattle.wire_core.specs.Runs.{all_replied, all_sent, replied_of};

use crate::fault::ServeFault;
use crate::serve::answer_counted;
use route_core::Routes;
use service_core::Desk;
use std::alloc::{AllocError, Global};
use store_core::Backend;
use stream_core::CountedReader;

/// Serves each message in turn at its moment, in minutes since 1970-01-01 00:00 UTC, as `serve_one`
/// does: the bytes of its reply, or `NoMemory` where there was no memory for it and nothing was
/// done. What follows a message in its bytes isn't looked at. There are as many replies as messages,
/// whatever the tables are.
///
/// Room for the replies is had before the first message: `AllocError` where it is refused, and
/// nothing is done.
#[tactic(auto, using(service_core::proofs::LeftLemmas::left_same))]
pub fn serve_list<S: Backend>(
    alloc: Global,
    messages: &[(u32, Vec<u8>)],
    desk: &mut Desk<S>,
) -> Result<Vec<Result<Vec<u8>, ServeFault>>, AllocError>
    ensures run { IfOk result (λ replies. RunsMessagesOn (settings_of S.Store desk.old)
        (all_sent messages.now) (all_replied replies.items)
        (tables_of S.Store desk.old) (tables_of S.Store desk.new)) }
    ensures each { IfOk result (λ replies. RunsOver (tables_of S.Store)
        (settings_of S.Store desk.old) (all_sent messages.now) (all_replied replies.items)
        desk.old desk.new) }
    ensures err { OnErr result (desk.new ≡ desk.old) }
    ensures left { LeavesDesk S.Store desk.old desk.new }
{
    let mut replies = Vec::with_capacity(alloc, messages.len())?;
    let router = Routes::new(alloc).ok();
    let routes = router.as_ref();
    for message in messages {
        let reply = serve_bytes(alloc, routes, message.0, message.1.as_slice(), desk);
        replies.push(reply).unwrap();
    }
    Ok(replies)
}

/// Serves the message with which these bytes begin: the bytes of its reply, or `NoMemory` where
/// there was no memory for it and nothing was done.
pub fn serve_bytes<S: Backend>(
    alloc: Global,
    routes: Option<&Routes>,
    moment: u32,
    bytes: &[u8],
    desk: &mut Desk<S>,
) -> Result<Vec<u8>, ServeFault>
    ensures reply { RepliesOn (settings_of S.Store desk.old) (moment, bytes.now)
        (replied_of result) (tables_of S.Store desk.old) (tables_of S.Store desk.new) }
    ensures over { IsReplyOver (settings_of S.Store desk.old) (moment, bytes.now)
        (replied_of result) (tables_of S.Store desk.old) (tables_of S.Store desk.new) }
    ensures err { OnErr result (desk.new ≡ desk.old) }
    ensures left { LeavesDesk S.Store desk.old desk.new }
{
    let mut stream = bytes;
    let mut reader = CountedReader::new(&mut stream);
    match answer_counted(alloc, routes, true, &mut reader, moment, desk) {
        Ok(room) => Ok(room.head),
        Err(_) => Err(ServeFault::NoMemory),
    }
}
