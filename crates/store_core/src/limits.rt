//! A limit on the steps of each statement.
ghost use Rattle.std.specs.Prelude.{◌≡◌};
ghost use Rattle.store_core.specs.Limits.{OnlyLimits, limited, steps_of};
ghost use Rattle.store_core.specs.Seen.{connection_of, state_of};

use crate::store::Store;
use sqlite::Alter;

impl<S: Alter> Store<S> {
    /// Limits the steps of each later statement; a row that it visits is a step. One that would
    /// take more is refused. None is no limit, and a limit of no step counts as one of one step.
    /// Nothing else is another. Takes no memory.
    pub fn set_step_limit(&mut self, limit: Option<u32>)
        ensures limited { connection_of S.Store self.new
            ≡ limited limit (connection_of S.Store self.old) }
        ensures kept { OnlyLimits (state_of S.Store self.old) (state_of S.Store self.new) }
    {
        self.tables.conn.set_step_limit(steps_of(limit));
    }
}

/// A limit as the connection takes it.
fn steps_of(limit: Option<u32>) -> Option<u64>
    ensures { result ≡ steps_of limit }
{
    match limit {
        Some(steps) => Some(u64::from(steps.max(1))),
        None => None,
    }
}
