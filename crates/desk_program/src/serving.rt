//! A server, which answers connections one after the other.
ghost use Rattle.std.specs.Prelude.{◌≡◌};
ghost use Rattle.service_core.specs.Leaves.{LeavesDesk};
ghost use Rattle.service_core.specs.Seen.{settings_of, tables_of};
ghost use Rattle.desk_program.specs.Listening.{IsUncalled};
ghost use Rattle.desk_program.specs.Serving.{IsEnded};

use crate::listening::CountedListener;
use crate::status::Status;
use service_core::Desk;
use std::alloc::Global;
use std::io::{Read, Write};
use std::net::OpenListener;
use std::time::Clock;
use store_core::Backend;
use wire_core::Routes;

/// Answers so many connections, one after the other, by a listener that counts and wasn't called so
/// far: each is served as `serve_one` does, at the clock's minute once it is accepted, and its fault
/// is passed over. The status is then 0; where a connection can't be accepted it ends there with 4.
/// As many connections were accepted as the listener says, and the desk was led by each of them: by a
/// message step or, where a read failed, by none, as often as it says.
pub fn serve_on<L: OpenListener, K: Clock, S: Backend>(
    alloc: Global,
    listener: &mut CountedListener<'_, L>,
    count: u32,
    clock: &K,
    desk: &mut Desk<S>,
) -> u8
where
    L::Stream: Read + Write,
    requires { IsUncalled listener.old }
    ensures ended { IsEnded (settings_of S.Store desk.old) count result listener.new
        (tables_of S.Store desk.old) (tables_of S.Store desk.new) }
    ensures left { LeavesDesk S.Store desk.old desk.new }
{
    let router = Routes::new(alloc).ok();
    let routes = router.as_ref();
    for _connection in 0..count {
        match listener.accept(clock) {
            Some(connection) => {
                let _passed_over = listener.serve(alloc, routes, connection, desk);
            }
            None => return u8::from(Status::Failed),
        }
    }
    u8::from(Status::Done)
}
