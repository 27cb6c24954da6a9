//! A server of many connections, over tables.
ghost use Rattle.std.specs.Prelude.{◌≡◌, false, true, IfOk, OnErr};
ghost use Rattle.service_core.specs.Seen.{settings_of, tables_of};
ghost use Rattle.server_core.specs.Served.{IsServed};
ghost use Rattle.http_rules.specs.Expectation.{StatesByRules};
ghost use Rattle.web_core.specs.Messages.{RunsSome};
ghost use Rattle.web_core.specs.Web as web;
ghost use Rattle.web_core.specs.Shut.{IsShut};

use crate::desk::WebDesk;
use crate::system::System;
use server_core::laws::run_law;
use server_core::{Ending, Host, serve};
use std::alloc::{AllocError, Global};
use store_core::Backend;

/// Serves connections, at most so many at once, until so many messages were answered: the tables
/// are then those after these messages, one after the other, each answered with the bytes that the
/// abstract desk's step gives: a page's, or the interface's, and with the line `Date`. A message is
/// taken by HTTP's rules: see `http_rules::by_rules`, and `is_expecting` for those that are
/// answered 417 by their head.
///
/// It ends by `Counted` where it has answered as many as it was to, by `Network` only where a wait
/// has failed, or sixteen accepts in a row with no connection left, and by `Shut` only where the
/// store is shut, or somebody who may has asked the server to stop; then, from the next turn on, no
/// message is answered, and the replies go out before. `AllocError` where there is no memory for
/// the places: then nothing is done.
pub fn serve_web<H: Host, S: Backend, C: System>(
    alloc: Global,
    host: &mut H,
    desk: &mut WebDesk<S, C>,
    places: usize,
    most: u64,
) -> Result<Ending, AllocError>
    ensures ran { IfOk result (λ ending. RunsSome desk.old.https (settings_of S.Store desk.old.desk)
        (tables_of S.Store desk.old.desk) (tables_of S.Store desk.new.desk)) }
    ensures served { IfOk result (λ ending. IsServed StatesByRules (web.Steps S.Store C.made C.told)
        (web.shuts S.Store) (H.told host.old) (H.told host.new) (H.calls host.old) (H.calls host.new)
        places most desk.old ending desk.new) }
    ensures shut { IfOk result (λ ending. ending ≡ Ending.Shut → desk.new.is_shut ≡ false
        → desk.new.stops ≡ true) }
    ensures seen { desk.new.is_shut ≡ true → IsShut (tables_of S.Store desk.new.desk) }
    ensures err { OnErr result (desk.new ≡ desk.old) }
{
    run_law::<WebDesk<S, C>>();
    serve(alloc, host, desk, places, most)
}
