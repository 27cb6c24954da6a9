//! One message, of the pages or of the interface.
ghost use Rattle.std.specs.Prelude.{◌≡◌, ◌≢◌, ◌≤◌, [], Err, IfOk, Ok, OnErr, OnOk};
ghost use Rattle.std.specs.Vec.{vec_capacity};
ghost use Rattle.message_core.specs.Reply.{bytes_of, unavailable};
ghost use Rattle.service_core.specs.Leaves.{LeavesDesk};
ghost use Rattle.service_core.specs.Seen.{settings_of, tables_of};
ghost use Rattle.store_tables.specs.Calls.{LeavesTables};
ghost use Rattle.page_wire.specs.Faults as form;
ghost use Rattle.page_wire.specs.Steps.{RequestPageStepsOn, IsReadOf, RequestStepsOn, MessageReadStepsOn, ToldStepsOn};
ghost use Rattle.wire_core.specs.Steps.{StaysOn};

use crate::faults::fault_reply;
use crate::head_only::tell;
use crate::health::{answer_health, asks_health};
use crate::redirect::ROOM;
use crate::visits::make_visit;
use message_core::{BodyLimit, Request, WireFault, read_request_counted, unavailable_reply};
use page_routes::{PageFault, PageRequest, is_page_place, visit_of};
use service_core::Desk;
use std::alloc::{AllocError, Global};
use store_core::Backend;
use stream_core::CountedReader;
use wire_core::{Routes, answer_fault, answer_request, is_head};

/// The message with which these bytes begin, with its head; its body may be as long as its place
/// takes. `NoMemory` may stand in place of any answer.
#[tactic(auto, using(crate::proofs::Answering::told_read, crate::proofs::Answering::ok_read))]
pub fn read_sent(alloc: Global, bytes: &[u8]) -> Result<Request, WireFault>
    ensures { result ≢ Err WireFault.NoMemory → IsReadOf bytes.now result }
{
    match read(alloc, bytes) {
        Ok(request) => Ok(request),
        Err(fault) => Err(told_of(fault)),
    }
}

/// The fault that is told of one: bytes in memory are read without a fault of their own.
fn told_of(fault: WireFault) -> WireFault
    ensures { result ≢ WireFault.NoMemory → (fault ≢ WireFault.Read) × (result ≡ fault) }
{
    match fault {
        WireFault::Read | WireFault::NoMemory => WireFault::NoMemory,
        WireFault::TooLong => WireFault::TooLong,
        WireFault::Truncated => WireFault::Truncated,
        WireFault::BadHead => WireFault::BadHead,
        WireFault::BadLength => WireFault::BadLength,
    }
}

/// What the bytes begin with, as `read_sent` tells it.
fn read(alloc: Global, bytes: &[u8]) -> Result<Request, WireFault>
    ensures { result ≢ Err WireFault.Read → result ≢ Err WireFault.NoMemory
        → IsReadOf bytes.now result }
{
    let mut stream = bytes;
    let mut reader = CountedReader::new(&mut stream);
    read_request_counted(alloc, &mut reader, BodyLimit::ByPlace)
}

/// Answers what was read, at a moment in minutes since 1970-01-01 00:00 UTC: a fault is told, whoever
/// asks whether the desk is there is told, and else a message is answered at a place of the pages by
/// its visit, and by the interface at any other. Where browsers come by HTTPS the pages have a cookie
/// for that alone. The bytes of its reply, or `AllocError` where there
/// was no memory for it and nothing was done.
#[tactic(auto, using(service_core::proofs::LeftLemmas::left_same, store_tables::proofs::Spared::unread))]
pub fn answer_sent<S: Backend>(
    alloc: Global,
    routes: Option<&Routes>,
    https: bool,
    read: &Result<Request, WireFault>,
    moment: u32,
    desk: &mut Desk<S>,
) -> Result<Vec<u8>, AllocError>
    ensures reply { IfOk result (λ out. MessageReadStepsOn https (settings_of S.Store desk.old) moment read.now
        out.items (tables_of S.Store desk.old) (tables_of S.Store desk.new)) }
    ensures err { OnErr result (LeavesTables (tables_of S.Store desk.old) (tables_of S.Store desk.new)) }
    ensures left { LeavesDesk S.Store desk.old desk.new }
{
    match read {
        Ok(request) => answer_read(alloc, routes, https, request, moment, desk),
        Err(fault) => answer_fault(alloc, *fault),
    }
}

/// Answers a message that was read.
#[tactic(auto, using(crate::proofs::Answering::spared_err, crate::proofs::Answering::left_spared))]
fn answer_read<S: Backend>(
    alloc: Global,
    routes: Option<&Routes>,
    https: bool,
    request: &Request,
    moment: u32,
    desk: &mut Desk<S>,
) -> Result<Vec<u8>, AllocError>
    ensures reply { IfOk result (λ out. MessageReadStepsOn https (settings_of S.Store desk.old) moment
        (Ok request.now) out.items (tables_of S.Store desk.old) (tables_of S.Store desk.new)) }
    ensures err { OnErr result (LeavesTables (tables_of S.Store desk.old) (tables_of S.Store desk.new)) }
    ensures left { LeavesDesk S.Store desk.old desk.new }
{
    if asks_health(&request.message) {
        answer_health(alloc, is_head(&request.message), desk)
    } else if is_page_place(request.message.target.as_slice()) {
        answer_in_room(alloc, https, request, moment, desk)
    } else {
        answer_request(alloc, routes, &request.message, moment, desk)
    }
}

/// Answers a message at a place of the pages, where there is room for a short reply.
#[tactic(auto, using(service_core::proofs::LeftLemmas::left_same))]
fn answer_in_room<S: Backend>(
    alloc: Global,
    https: bool,
    request: &Request,
    moment: u32,
    desk: &mut Desk<S>,
) -> Result<Vec<u8>, AllocError>
    ensures reply { IfOk result (λ out. RequestStepsOn https (settings_of S.Store desk.old) moment
        request.now out.items (tables_of S.Store desk.old) (tables_of S.Store desk.new)) }
    ensures err { OnErr result (desk.new ≡ desk.old) }
    ensures left { LeavesDesk S.Store desk.old desk.new }
{
    match Vec::with_capacity(alloc, ROOM) {
        Ok(mut room) => {
            answer_page(alloc, https, request, moment, desk, &mut room);
            Ok(room)
        }
        Err(_) => Err(AllocError),
    }
}

/// Makes the visit of a message at a place of the pages, and puts its reply into the room. Where
/// that is out of memory, nothing is done and the reply says so.
fn answer_page<S: Backend>(
    alloc: Global,
    https: bool,
    request: &Request,
    at: u32,
    desk: &mut Desk<S>,
    room: &mut Vec<u8>,
)
    requires empty { room.old.items ≡ [] }
    requires room { 512 ≤ vec_capacity room.old }
    ensures step { RequestStepsOn https (settings_of S.Store desk.old) at request.now room.new.items
        (tables_of S.Store desk.old) (tables_of S.Store desk.new) }
    ensures left { LeavesDesk S.Store desk.old desk.new }
{
    match reply_to(alloc, https, request, at, desk, room) {
        Ok(()) => (),
        Err(_) => put_unavailable(is_head(&request.message), room),
    }
}

/// Puts the reply into the room that nothing was done, since it was out of memory.
fn put_unavailable(head_only: bool, room: &mut Vec<u8>)
    requires empty { room.old.items ≡ [] }
    requires room { 512 ≤ vec_capacity room.old }
    ensures { room.new.items ≡ bytes_of (unavailable head_only) }
{
    room.extend_from_slice(unavailable_reply(head_only))
        .unwrap();
}

/// The same, where there is memory for it.
#[tactic(auto, using(service_core::proofs::LeftLemmas::left_same))]
fn reply_to<S: Backend>(
    alloc: Global,
    https: bool,
    request: &Request,
    at: u32,
    desk: &mut Desk<S>,
    room: &mut Vec<u8>,
) -> Result<(), AllocError>
    requires empty { room.old.items ≡ [] }
    requires room { 512 ≤ vec_capacity room.old }
    ensures ok { OnOk result (RequestPageStepsOn https (settings_of S.Store desk.old) at request.now
        room.new.items (tables_of S.Store desk.old) (tables_of S.Store desk.new)) }
    ensures err { OnErr result ((room.new ≡ room.old) × StaysOn (settings_of S.Store desk.old)
        (tables_of S.Store desk.old) (tables_of S.Store desk.new)) }
    ensures left { LeavesDesk S.Store desk.old desk.new }
{
    match visit_of(alloc, desk.settings(), https, at, request) {
        Ok(visit) => {
            let made = tell_visit(alloc, is_head(&request.message), &visit, at, desk, room);
            drop(visit);
            made
        }
        Err(PageFault::NoMemory) => Err(AllocError),
        Err(fault) => put_fault(alloc, is_head(&request.message), fault, room),
    }
}

/// Makes a visit and puts its reply into the room, or the head of it alone. Out of memory nothing is
/// done, and nothing is put.
fn tell_visit<S: Backend>(
    alloc: Global,
    head_only: bool,
    visit: &PageRequest,
    at: u32,
    desk: &mut Desk<S>,
    room: &mut Vec<u8>,
) -> Result<(), AllocError>
    requires empty { room.old.items ≡ [] }
    requires room { 512 ≤ vec_capacity room.old }
    ensures ok { OnOk result (ToldStepsOn (settings_of S.Store desk.old) at head_only visit.now
        room.new.items (tables_of S.Store desk.old) (tables_of S.Store desk.new)) }
    ensures err { OnErr result ((room.new ≡ room.old) × StaysOn (settings_of S.Store desk.old)
        (tables_of S.Store desk.old) (tables_of S.Store desk.new)) }
    ensures left { LeavesDesk S.Store desk.old desk.new }
{
    make_visit(alloc, visit, at, desk, room)?;
    tell(head_only, room);
    Ok(())
}

fn put_fault(
    alloc: Global,
    head_only: bool,
    fault: PageFault,
    room: &mut Vec<u8>,
) -> Result<(), AllocError>
    ensures ok { OnOk result (room.new.items ≡ form.fault_reply head_only fault) }
    ensures err { OnErr result (room.new ≡ room.old) }
{
    match fault_reply(alloc, head_only, fault) {
        Ok(bytes) => {
            *room = bytes;
            Ok(())
        }
        Err(_) => Err(AllocError),
    }
}
