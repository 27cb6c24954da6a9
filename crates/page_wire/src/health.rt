//! Whether the desk is there.
ghost use Rattle.std.specs.Prelude.{◌≡◌, IfOk, codes, false};
ghost use Rattle.std.specs.Str.{bytes_eq};
ghost use Rattle.page_routes.specs.Places.{path_in};
ghost use Rattle.message_core.specs.Reply.{bytes_of, unavailable};
ghost use Rattle.service_core.specs.Seen.{settings_of, tables_of};
ghost use Rattle.sqlite.specs.State.{HasCleanDisk};
ghost use Rattle.store_tables.specs.Calls.{LeavesTables};
ghost use Rattle.page_wire.specs.Health as form;
ghost use Rattle.page_wire.specs.Health.{TellsHealth};

use browser_core::cut;
use message_core::{Message, Reply, answer_bytes, unavailable_reply};
use service_core::Desk;
use std::alloc::{AllocError, Global};
use store_core::Backend;
use text_core::Sequence;
use wire_core::is_head;

/// Whether a message asks whether the desk is there: a GET or a HEAD of `/health`.
pub(crate) fn asks_health(message: &Message) -> bool
    ensures { result ≡ form.asks_health message.now }
{
    is_health_path(message) && (message.method.as_slice() == b"GET".as_slice() || is_head(message))
}

fn is_health_path(message: &Message) -> bool
    ensures { result ≡ bytes_eq (path_in message.now.target) (codes "/health") }
{
    cut(message.target.as_slice(), b'?').0 == b"/health".as_slice()
}

/// The reply `ok` where the store of the desk is open and answers a row, and else the reply that
/// nothing is done now. No request is told of, and the tables stay as they are.
pub(crate) fn answer_health<S: Backend>(
    alloc: Global,
    head_only: bool,
    desk: &mut Desk<S>,
) -> Result<Vec<u8>, AllocError>
    ensures told { IfOk result (λ out. TellsHealth head_only out.items) }
    ensures shut { HasCleanDisk (tables_of S.Store desk.new)
        → (tables_of S.Store desk.old).is_open ≡ false
        → IfOk result (λ out. out.items ≡ bytes_of (unavailable head_only)) }
    ensures kept { LeavesTables (tables_of S.Store desk.old) (tables_of S.Store desk.new) }
    ensures same { settings_of S.Store desk.new ≡ settings_of S.Store desk.old }
{
    let is_there = is_there(desk);
    health_bytes(alloc, head_only, is_there)
}

/// Whether the store of the desk is open and answers a row.
fn is_there<S: Backend>(desk: &mut Desk<S>) -> bool
    ensures shut { HasCleanDisk (tables_of S.Store desk.new)
        → (tables_of S.Store desk.old).is_open ≡ false → result ≡ false }
    ensures kept { LeavesTables (tables_of S.Store desk.old) (tables_of S.Store desk.new) }
    ensures same { settings_of S.Store desk.new ≡ settings_of S.Store desk.old }
{
    match desk.is_open() {
        Ok(live) => live,
        Err(_) => false,
    }
}

fn health_bytes(alloc: Global, head_only: bool, is_there: bool) -> Result<Vec<u8>, AllocError>
    ensures told { IfOk result (λ out. TellsHealth head_only out.items) }
    ensures there { is_there ≡ false → IfOk result (λ out. out.items ≡ bytes_of (unavailable head_only)) }
{
    if is_there {
        ok_bytes(alloc, head_only)
    } else {
        unavailable_reply(head_only).to_vec(alloc)
    }
}

fn ok_bytes(alloc: Global, head_only: bool) -> Result<Vec<u8>, AllocError>
    ensures { IfOk result (λ out. out.items ≡ bytes_of (form.health_reply head_only)) }
{
    let reply = Reply {
        status: 200,
        allow: None,
        body: Sequence::from(b"ok\n".to_vec(alloc)?),
        head_only,
    };
    answer_bytes(alloc, &reply)
}
