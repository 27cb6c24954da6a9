//! Whether the store under a desk is shut.
ghost use Rattle.std.specs.Prelude.{◌≡◌, Ok, IfOk, not, true};
ghost use Rattle.service_core.specs.Seen.{settings_of, tables_of};
ghost use Rattle.sqlite.specs.State.{HasCleanDisk};
ghost use Rattle.store_tables.specs.Calls.{LeavesTables};
ghost use Rattle.web_core.specs.Shut.{IsShut};

use desk_core::Refusal;
use service_core::Desk;
use store_core::Backend;

/// Whether the store is shut. `Unavailable` where memory or the store refuses to tell. It asks the
/// store for a row.
fn is_shut<S: Backend>(desk: &mut Desk<S>) -> Result<bool, Refusal>
    ensures told { HasCleanDisk (tables_of S.Store desk.new)
        → IfOk result (λ shut. shut ≡ not (tables_of S.Store desk.old).is_open) }
    ensures shut { result ≡ Ok true → IsShut (tables_of S.Store desk.new) }
    ensures kept { LeavesTables (tables_of S.Store desk.old) (tables_of S.Store desk.new) }
    ensures same { settings_of S.Store desk.new ≡ settings_of S.Store desk.old }
{
    Ok(!desk.is_open()?)
}

/// Whether it was told that the store is shut; not, where it can't be told.
pub(crate) fn is_seen_shut<S: Backend>(desk: &mut Desk<S>) -> bool
    ensures shut { result ≡ true → IsShut (tables_of S.Store desk.new) }
    ensures kept { LeavesTables (tables_of S.Store desk.old) (tables_of S.Store desk.new) }
    ensures same { settings_of S.Store desk.new ≡ settings_of S.Store desk.old }
{
    match is_shut(desk) {
        Ok(shut) => shut,
        Err(_) => false,
    }
}
