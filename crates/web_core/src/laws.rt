//! What holds of every server over tables.
ghost use Rattle.std.specs.Prelude.{◌≡◌, ◌≤◌, ◌+◌, ◌*◌, ℕ, List, replicate};
ghost use Rattle.connection_core.specs.Machine.{Conn, closed};
ghost use Rattle.server_core.specs.Held.{AllOf, IsAtMost, IsHeard, held};
ghost use Rattle.server_core.specs.Served.{Serves, Turn, answers};
ghost use Rattle.http_rules.specs.Expectation.{StatesByRules};
ghost use Rattle.web_core.specs.Web as web;
ghost use Rattle.web_core.specs.declared.desk.WebDesk.{WebDesk as Held};

use crate::desk::WebDesk;
use crate::system::System;
use server_core::laws;
use store_core::Backend;

/// No more is held than 270,336 bytes of a message and those of the longest reply for each place.
pub fn memory_law<S: Backend, C: System>()
    ensures { (places most bytes : ℕ) (turns : List Turn) (news : List Conn)
        (desk next : Held S C S.Store)
        → Serves StatesByRules (web.Steps S.Store C.made C.told) (web.shuts S.Store) most turns
        (replicate places closed) desk news next
        → AllOf (IsAtMost bytes) (answers turns) → held news ≤ places * (270336 + bytes) }
{
    laws::memory_law::<WebDesk<S, C>>();
}
