//! Rows that are put in or taken out, one statement each, in a transaction that goes on. `Refused`
//! where the store or memory refuses one; of what a fault leaves nothing is said until the
//! transaction ends.
ghost use Rattle.std.specs.Prelude.{◌≡◌, fold, option_to_list};
ghost use Rattle.sqlite.specs.Held.{state};
ghost use Rattle.store_tables.specs.Calls.{StatementChanges};
ghost use Rattle.store_tables.specs.Contents.{Contents};

use crate::fault::StoreFault;
use sqlite::{Alter, Transaction};

/// A row that a statement puts in, or a part that it sets in one.
pub trait Put: Sized {
    /// What it makes of whatever the tables hold.
    ghost put_in: { Contents → Self → Contents };

    /// Puts it in. `Refused` where the store or memory refuses it.
    fn put<S: Alter>(&self, tx: &mut Transaction<'_, S>) -> Result<(), StoreFault>
        ensures same_reference { tx.new.conn.ghost_name ≡ tx.old.conn.ghost_name }
        ensures put { StatementChanges (λ c. put_in c self.now)
            (state S.Store tx.old.conn.now) (state S.Store tx.new.conn.now) result };
}

/// A row that a statement takes out.
pub trait Take: Sized {
    /// What it leaves of whatever the tables hold.
    ghost taken_out: { Contents → Self → Contents };

    /// Takes it out. `Refused` where it isn't there, or the store or memory refuses it.
    fn take<S: Alter>(&self, tx: &mut Transaction<'_, S>) -> Result<(), StoreFault>
        ensures same_reference { tx.new.conn.ghost_name ≡ tx.old.conn.ghost_name }
        ensures taken { StatementChanges (λ c. taken_out c self.now)
            (state S.Store tx.old.conn.now) (state S.Store tx.new.conn.now) result };
}

/// Puts rows in, in order. `Refused` where the store or memory refuses one.
pub fn put_all<T: Put, S: Alter>(tx: &mut Transaction<'_, S>, rows: &[T]) -> Result<(), StoreFault>
    ensures same_reference { tx.new.conn.ghost_name ≡ tx.old.conn.ghost_name }
    ensures put { StatementChanges (λ c. fold T.Put.put_in c rows.now)
        (state S.Store tx.old.conn.now) (state S.Store tx.new.conn.now) result }
{
    for row in rows {
        row.put(tx)?;
    }
    Ok(())
}

/// Takes rows out, in order. `Refused` where one isn't there, or the store or memory refuses it.
pub fn take_all<T: Take, S: Alter>(
    tx: &mut Transaction<'_, S>,
    rows: &[T],
) -> Result<(), StoreFault>
    ensures same_reference { tx.new.conn.ghost_name ≡ tx.old.conn.ghost_name }
    ensures taken { StatementChanges (λ c. fold T.Take.taken_out c rows.now)
        (state S.Store tx.old.conn.now) (state S.Store tx.new.conn.now) result }
{
    for row in rows {
        row.take(tx)?;
    }
    Ok(())
}

/// Puts a row in, if there is one. `Refused` where the store or memory refuses it.
pub fn put_any<T: Put, S: Alter>(
    tx: &mut Transaction<'_, S>,
    row: &Option<T>,
) -> Result<(), StoreFault>
    ensures same_reference { tx.new.conn.ghost_name ≡ tx.old.conn.ghost_name }
    ensures put { StatementChanges (λ c. fold T.Put.put_in c (option_to_list row.now))
        (state S.Store tx.old.conn.now) (state S.Store tx.new.conn.now) result }
{
    match row {
        Some(row) => row.put(tx),
        None => Ok(()),
    }
}

/// Takes a row out, if there is one. `Refused` where it isn't there, or the store or memory refuses
/// it.
pub fn take_any<T: Take, S: Alter>(
    tx: &mut Transaction<'_, S>,
    row: &Option<T>,
) -> Result<(), StoreFault>
    ensures same_reference { tx.new.conn.ghost_name ≡ tx.old.conn.ghost_name }
    ensures taken { StatementChanges (λ c. fold T.Take.taken_out c (option_to_list row.now))
        (state S.Store tx.old.conn.now) (state S.Store tx.new.conn.now) result }
{
    match row {
        Some(row) => row.take(tx),
        None => Ok(()),
    }
}
