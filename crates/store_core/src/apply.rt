//! A change is written, whole or not at all.
ghost use Rattle.std.specs.Prelude.{◌≡◌, IfErr, OnErr};
ghost use Rattle.store_tables.specs.Calls.{KeepsConnection, LeavesTables, WasClean};
ghost use Rattle.store_tables.specs.Dated.{MakesDatedCommitted};
ghost use Rattle.store_tables.specs.Stands.{RolledBack};
ghost use Rattle.store_tables.specs.declared.fault.StoreFault.{StoreFault};
ghost use Rattle.store_core.specs.Applying.{Applies, Writes};
ghost use Rattle.store_core.specs.Seen.{state_of};
ghost use Rattle.store_core.specs.Written.{written};
ghost use Rattle.store_tables.specs.Seen.{seen};

use crate::change::write_change;
use crate::store::Store;
use desk_core::Change;
use sqlite::Alter;
use store_tables::transaction::finish;
use store_tables::{StoreFault, Tables};

/// Writes a change in one transaction: all of it, or none.
fn apply_change<S: Alter>(tables: &mut Tables<S>, change: &Change) -> Result<(), StoreFault>
    ensures done { Writes change.now (seen S.Store tables.old) (seen S.Store tables.new) result }
    ensures shown { MakesDatedCommitted (written change.now)
        (seen S.Store tables.old) (seen S.Store tables.new) result }
    ensures undone { OnErr result
        (RolledBack (seen S.Store tables.old) (seen S.Store tables.new)) }
    ensures honest { WasClean (seen S.Store tables.old) (seen S.Store tables.new) }
    ensures lasts { KeepsConnection (seen S.Store tables.old) (seen S.Store tables.new) }
    ensures fault { IfErr result (λ e. e ≡ StoreFault.Refused) }
{
    let mut tx = tables.conn.transaction();
    write_change(&mut tx, change)?;
    finish(tx)
}

impl<S: Alter> Store<S> {
    /// Writes a change, in one transaction. `Refused` where the store refuses a statement: where a
    /// row of the change is there already, where one that it sets or takes out isn't there, or
    /// where the disk or memory fails. On a fault the tables stay as they are, whatever rows they
    /// have. The requests that they show are changed so, whatever rows the other tables have.
    pub fn apply(&mut self, change: &Change) -> Result<(), StoreFault>
        ensures done { Applies change.now
            (state_of S.Store self.old) (state_of S.Store self.new) result }
        ensures rows { Writes change.now
            (state_of S.Store self.old) (state_of S.Store self.new) result }
        ensures shown { MakesDatedCommitted (written change.now)
            (state_of S.Store self.old) (state_of S.Store self.new) result }
        ensures undone { OnErr result
            (LeavesTables (state_of S.Store self.old) (state_of S.Store self.new)) }
        ensures honest { WasClean (state_of S.Store self.old) (state_of S.Store self.new) }
        ensures lasts { KeepsConnection (state_of S.Store self.old) (state_of S.Store self.new) }
        ensures fault { IfErr result (λ e. e ≡ StoreFault.Refused) }
    {
        apply_change(&mut self.tables, change)
    }
}
