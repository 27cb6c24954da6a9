//! The rows of a queue, of which 64 are read at once.
ghost use Rattle.std.specs.Prelude.{◌≡◌, []};
ghost use Rattle.store_tables.specs.Readings.{Reads};
ghost use Rattle.store_tables.specs.Seen.{seen};
ghost use Rattle.store_core.specs.Ahead.{OfDated, ReadsOn, TakesNext, filed_ahead};
ghost use Rattle.store_core.specs.Ahead.{number_of_last};

use desk_core::RequestRow;
use hours_core::Minute;
use sqlite::Alter;
use std::alloc::Global;
use std::collections::VecDeque;
use store_tables::tables::request::dated::dated_after;
use store_tables::{StoreFault, Tables};
use text_core::Text;

/// The rows of a queue that are still to come.
#[derive(Drop)]
pub(crate) struct Filed {
    alloc: Global,
    queue: Text,
    /// The number of the last row that was read.
    last: u32,
    /// Rows that were read and aren't given yet.
    read: VecDeque<(RequestRow, Option<Minute>)>,
}

impl Filed {
    /// All rows of that queue.
    pub(crate) fn whole(alloc: Global, queue: Text) -> Filed
        ensures queue { result.queue ≡ queue }
        ensures last { result.last ≡ 0 }
        ensures read { result.read.items ≡ [] }
    {
        Filed {
            alloc,
            queue,
            last: 0,
            read: VecDeque::new(alloc),
        }
    }

    /// The next row, or none after the last. `Mismatch` where a row of those that are read with it
    /// is no request or its due moment is neither a minute nor absent, `Refused` where the store or
    /// memory refuses it.
    pub(crate) fn next<S: Alter>(
        &mut self,
        tables: &mut Tables<S>,
    ) -> Result<Option<(RequestRow, Option<Minute>)>, StoreFault>
        ensures { Reads (OfDated (λ due desk row.
            TakesNext (filed_ahead self.old due desk) row (filed_ahead self.new due desk)))
            (seen S.Store tables.old) (seen S.Store tables.new) result }
    {
        match self.read.pop_front() {
            Some(row) => Ok(Some(row)),
            None => {
                self.read_on(tables)?;
                Ok(self.read.pop_front())
            }
        }
    }

    /// Reads 64 rows more, or those that are left.
    fn read_on<S: Alter>(&mut self, tables: &mut Tables<S>) -> Result<(), StoreFault>
        ensures { Reads (OfDated (λ due desk done. ReadsOn self.old self.new due desk))
            (seen S.Store tables.old) (seen S.Store tables.new) result }
    {
        let rows = dated_after(self.alloc, tables, &self.queue, self.last)?;
        self.last = last_number(rows.as_slice(), self.last);
        self.read = VecDeque::from_vec(rows);
        Ok(())
    }
}

/// The number of the last row, or that one where there is none.
fn last_number(rows: &[(RequestRow, Option<Minute>)], number: u32) -> u32
    ensures { result ≡ number_of_last rows.now number }
{
    match rows.last() {
        Some(row) => row.0.id,
        None => number,
    }
}
