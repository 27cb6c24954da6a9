//! Due moments are written, all or none.
ghost use Rattle.std.specs.Prelude.{◌≡◌, fold, IfErr, OnErr};
ghost use Rattle.store_tables.specs.Calls.{KeepsConnection, LeavesTables, WasClean};
ghost use Rattle.store_tables.specs.Contents.{set_each_due};
ghost use Rattle.store_tables.specs.Dated.{MakesDatedCommitted};
ghost use Rattle.store_tables.specs.Stands.{RolledBack};
ghost use Rattle.store_tables.specs.declared.fault.StoreFault.{StoreFault};
ghost use Rattle.store_core.specs.Applying.{DatesDesk, WritesDues};
ghost use Rattle.store_core.specs.Seen.{state_of};
ghost use Rattle.store_tables.specs.Seen.{seen};

use crate::store::Store;
use hours_core::Minute;
use sqlite::Alter;
use store_tables::transaction::finish;
use store_tables::written::put_all;
use store_tables::{StoreFault, Tables};

/// Writes due moments in one transaction: all of them, or none.
fn write_dues<S: Alter>(
    tables: &mut Tables<S>,
    dues: &[(u32, Option<Minute>)],
) -> Result<(), StoreFault>
    ensures done { WritesDues dues.now (seen S.Store tables.old) (seen S.Store tables.new) result }
    ensures shown { MakesDatedCommitted (λ c. fold set_each_due c dues.now)
        (seen S.Store tables.old) (seen S.Store tables.new) result }
    ensures undone { OnErr result
        (RolledBack (seen S.Store tables.old) (seen S.Store tables.new)) }
    ensures honest { WasClean (seen S.Store tables.old) (seen S.Store tables.new) }
    ensures lasts { KeepsConnection (seen S.Store tables.old) (seen S.Store tables.new) }
    ensures fault { IfErr result (λ e. e ≡ StoreFault.Refused) }
{
    let mut tx = tables.conn.transaction();
    put_all(&mut tx, dues)?;
    finish(tx)
}

impl<S: Alter> Store<S> {
    /// Writes the due moments of requests, each by its number, in order and in one transaction. A
    /// number that no request has is passed over, of a repeated number the last stands, and the
    /// empty list changes nothing. `Refused` where the store refuses a statement, or the disk or
    /// memory fails. On a fault the tables stay as they are, whatever rows they have. The requests
    /// that they show are changed so, whatever rows the other tables have.
    pub fn set_due_times(&mut self, dues: &[(u32, Option<Minute>)]) -> Result<(), StoreFault>
        ensures done { DatesDesk dues.now
            (state_of S.Store self.old) (state_of S.Store self.new) result }
        ensures rows { WritesDues dues.now
            (state_of S.Store self.old) (state_of S.Store self.new) result }
        ensures shown { MakesDatedCommitted (λ c. fold set_each_due c dues.now)
            (state_of S.Store self.old) (state_of S.Store self.new) result }
        ensures undone { OnErr result
            (LeavesTables (state_of S.Store self.old) (state_of S.Store self.new)) }
        ensures honest { WasClean (state_of S.Store self.old) (state_of S.Store self.new) }
        ensures lasts { KeepsConnection (state_of S.Store self.old) (state_of S.Store self.new) }
        ensures fault { IfErr result (λ e. e ≡ StoreFault.Refused) }
    {
        write_dues(&mut self.tables, dues)
    }
}
