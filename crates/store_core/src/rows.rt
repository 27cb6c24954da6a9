//! Rows of requests with their due moments, one at a time. Those of a queue are read 64 at once. Of
//! those that are due the numbers are read first, and each row is then read by its number. What is
//! read ahead is kept in the store.
ghost use Rattle.std.specs.Prelude.{◌+◌, ◌<◌, ◌≡◌, ◌≢◌, ◌^◌, ◌∷◌, [], Err, IfErr, IfOk, IsSome};
ghost use Rattle.std.specs.Prelude.{None, Ok, filter, slice_get};
ghost use Rattle.std.specs.Borrow.{RestsIfErr, sem};
ghost use Rattle.store_tables.specs.Calls.{OnlyRefuses, LeavesTables};
ghost use Rattle.store_tables.specs.Contents.Request.{has_number};
ghost use Rattle.store_tables.specs.Readings.{MismatchesInNumbers};
ghost use Rattle.store_tables.specs.declared.fault.StoreFault.{StoreFault};
ghost use Rattle.store_tables.specs.Readings.{MismatchMeansBadRow, Reads};
ghost use Rattle.store_core.specs.Ahead.{Begins, GivesNext, HasAhead, IsRefused};
ghost use Rattle.store_core.specs.Ahead.{TakesNext, numbers_ahead, progress_after, rows_ahead};
ghost use Rattle.store_core.specs.Ahead.{rows_filed, rows_of};
ghost use Rattle.store_core.specs.Rows.{AreDueBefore, AreFiledIn, TellsDated};
ghost use Rattle.store_core.specs.Seen.{state_of};
ghost use Rattle.store_core.specs.contracts.store.Store.{the_row};

use crate::filed::Filed;
use crate::store::Store;
use desk_core::RequestRow;
use hours_core::Minute;
use sqlite::Alter;
use std::alloc::Global;
use store_tables::StoreFault;
use store_tables::tables::request::dated::dated_numbered;
use store_tables::tables::request::numbers::numbers_due_before;
use text_core::{Sequence, Text};

/// How far rows are read.
#[derive(Drop)]
pub enum Progress {
    /// Rows may come.
    Reading,
    /// All were given.
    Over,
    /// A fault was answered.
    Spent,
}

/// Where rows come from.
#[derive(Drop)]
enum Source {
    /// The numbers that the store keeps, from this place on.
    ByNumber(usize),
    /// What the store keeps of the rows of a queue.
    OfQueue,
}

/// Rows of requests with their due moments, one at a time. It may be dropped at any row.
pub struct RequestRows<'s, S: Alter> {
    store: &'s mut Store<S>,
    source: Source,
    progress: Progress,
}

impl<S: Alter> Store<S> {
    /// The rows of a queue's requests, in the order of their numbers, of which none is read yet.
    /// `Refused` where out of memory. The tables stay as they are.
    #[tactic(auto, using(store_tables::proofs::Spared::unread))]
    pub fn rows_of_queue(
        &mut self,
        alloc: Global,
        name: &Text,
    ) -> Result<RequestRows<'_, S>, StoreFault>
        ensures* refused { sem 𝓛 (RestsIfErr (the_row S.row S.Store) self.entry
            (λ rows. rows.store.ghost_name) result (IsRefused S.Store self.old result)) }
        ensures same_reference { IfOk result (λ rows.
            rows.store.ghost_name ≡ self.entry.ghost_name) }
        ensures begun { IfOk result (Begins S.Store (AreFiledIn name.now) self.old) }
    {
        let Ok(queue) = name.clone() else {
            return Err(StoreFault::Refused);
        };
        Ok(RequestRows::of_queue(self, alloc, queue))
    }

    /// The rows of the requests that are due before that moment, by due moment, and by number where
    /// those are the same, of which none is given yet. `Mismatch` where a number is none, `Refused`
    /// where the store or memory refuses it. The tables stay as they are.
    pub fn rows_overdue(&mut self, alloc: Global, at: u32) -> Result<RequestRows<'_, S>, StoreFault>
        ensures* refused { sem 𝓛 (RestsIfErr (the_row S.row S.Store) self.entry
            (λ rows. rows.store.ghost_name) result (IsRefused S.Store self.old result)) }
        ensures same_reference { IfOk result (λ rows.
            rows.store.ghost_name ≡ self.entry.ghost_name) }
        ensures begun { IfOk result (Begins S.Store (AreDueBefore at) self.old) }
    {
        self.keep_numbers_due_before(alloc, at)?;
        Ok(RequestRows::begin(self, Source::ByNumber(0)))
    }

    /// Reads and keeps the numbers of the requests that are due before that moment, by due moment.
    fn keep_numbers_due_before(&mut self, alloc: Global, at: u32) -> Result<(), StoreFault>
        ensures ahead { TellsDated
            (λ due desk done. HasAhead S.Store (AreDueBefore at) self.new due desk)
            (state_of S.Store self.old) (state_of S.Store self.new) result }
        ensures mismatch { MismatchesInNumbers
            (state_of S.Store self.old) (state_of S.Store self.new) result }
        ensures kept { LeavesTables (state_of S.Store self.old) (state_of S.Store self.new) }
    {
        let numbers = numbers_due_before(alloc, &mut self.tables, at)?;
        self.ahead = Some(Sequence::from(numbers));
        Ok(())
    }

    /// The number at that place of those that are kept, if there is one.
    fn number_ahead(&self, at: usize) -> Option<u32>
        ensures number { result ≡ slice_get (numbers_ahead S.Store self.now) at }
        ensures room { IsSome result → at + 1 < 2 ^ 64 }
    {
        match &self.ahead {
            None => None,
            Some(numbers) => number_at(numbers.as_slice(), at),
        }
    }

    /// The request with that number and its due moment. `Mismatch` where its row is no request or
    /// its due moment is neither a minute nor absent, `Refused` where the store or memory refuses
    /// it, or there is none or more than one.
    fn dated_request(&mut self, id: u32) -> Result<(RequestRow, Option<Minute>), StoreFault>
        ensures read { Reads (λ c row. filter (has_number id) c.dated ≡ row ∷ [])
            (state_of S.Store self.old) (state_of S.Store self.new) result }
        ensures same_numbers { self.new.ahead ≡ self.old.ahead }
    {
        match dated_numbered(&mut self.tables, id)? {
            Some(row) => Ok(row),
            None => Err(StoreFault::Refused),
        }
    }

    /// The next row by the numbers that are kept, from that place on, or none after the last.
    /// `Mismatch` and `Refused` are as of `next`.
    #[tactic(auto, using(store_tables::proofs::Spared::unread))]
    fn next_numbered(
        &mut self,
        at: &mut usize,
    ) -> Result<Option<(RequestRow, Option<Minute>)>, StoreFault>
        ensures given { TellsDated (λ due desk row.
            TakesNext (rows_ahead S.Store self.old at.old due desk) row
            (rows_ahead S.Store self.new at.new due desk))
            (state_of S.Store self.old) (state_of S.Store self.new) result }
        ensures kept { LeavesTables (state_of S.Store self.old) (state_of S.Store self.new) }
        ensures blames { MismatchMeansBadRow (state_of S.Store self.old) (state_of S.Store self.new) result }
    {
        let Some(id) = self.number_ahead(*at) else {
            return Ok(None);
        };
        let row = self.dated_request(id)?;
        *at += 1;
        Ok(Some(row))
    }

    /// The next row, or none after the last. `Mismatch` and `Refused` are as of `next`.
    fn next_of(
        &mut self,
        source: &mut Source,
    ) -> Result<Option<(RequestRow, Option<Minute>)>, StoreFault>
        ensures given { TellsDated (λ due desk row.
            TakesNext (rows_of S.Store self.old source.old due desk) row
            (rows_of S.Store self.new source.new due desk))
            (state_of S.Store self.old) (state_of S.Store self.new) result }
        ensures kept { LeavesTables (state_of S.Store self.old) (state_of S.Store self.new) }
        ensures blames { MismatchMeansBadRow (state_of S.Store self.old) (state_of S.Store self.new) result }
    {
        match source {
            Source::ByNumber(at) => self.next_numbered(at),
            Source::OfQueue => self.next_filed(),
        }
    }

    /// The next of the rows of a queue that are kept, or none after the last. `Mismatch` and
    /// `Refused` are as of `next`.
    #[tactic(auto, using(store_tables::proofs::Spared::unread))]
    fn next_filed(&mut self) -> Result<Option<(RequestRow, Option<Minute>)>, StoreFault>
        ensures given { TellsDated (λ due desk row.
            TakesNext (rows_filed self.old.filed due desk) row
            (rows_filed self.new.filed due desk))
            (state_of S.Store self.old) (state_of S.Store self.new) result }
        ensures kept { LeavesTables (state_of S.Store self.old) (state_of S.Store self.new) }
        ensures blames { MismatchMeansBadRow (state_of S.Store self.old) (state_of S.Store self.new) result }
    {
        match &mut self.filed {
            None => Ok(None),
            Some(filed) => filed.next(&mut self.tables),
        }
    }
}

/// The number at that place, if there is one.
fn number_at(numbers: &[u32], at: usize) -> Option<u32>
    ensures number { result ≡ slice_get numbers.now at }
    ensures room { IsSome result → at + 1 < 2 ^ 64 }
{
    if at < numbers.len() {
        Some(numbers[at])
    } else {
        None
    }
}

impl<'s, S: Alter> RequestRows<'s, S> {
    /// The rows of that queue, of which none is read yet.
    fn of_queue(store: &'s mut Store<S>, alloc: Global, queue: Text) -> RequestRows<'s, S>
        ensures same_reference { result.store.ghost_name ≡ store.entry.ghost_name }
        ensures begun { Begins S.Store (AreFiledIn queue) store.old result }
    {
        store.filed = Some(Filed::whole(alloc, queue));
        RequestRows::begin(store, Source::OfQueue)
    }

    fn begin(store: &'s mut Store<S>, source: Source) -> RequestRows<'s, S>
        ensures same_reference { result.store.ghost_name ≡ store.entry.ghost_name }
        ensures same { result.store.now ≡ store.old }
        ensures source { result.source ≡ source }
        ensures reading { result.progress ≡ Progress.Reading }
    {
        RequestRows {
            store,
            source,
            progress: Progress::Reading,
        }
    }

    /// The next row, or none after the last, and then none again. `Mismatch` where it or one that is
    /// read with it is no request or its due moment is neither a minute nor absent, `Refused` where
    /// the store or memory refuses it, or its number has no row or two; after a fault it is spent,
    /// and always `Refused`. The tables stay as they are.
    #[tactic(auto, using(store_tables::proofs::Spared::unread))]
    pub fn next(&mut self) -> Result<Option<(RequestRow, Option<Minute>)>, StoreFault>
        ensures same_reference { self.new.store.ghost_name ≡ self.old.store.ghost_name }
        ensures given { self.old.progress ≡ Progress.Reading →
            TellsDated (GivesNext S.Store self.old self.new)
            (state_of S.Store self.old.store.now) (state_of S.Store self.new.store.now) result }
        ensures over { self.old.progress ≡ Progress.Over → result ≡ Ok None }
        ensures spent { self.old.progress ≡ Progress.Spent → result ≡ Err StoreFault.Refused }
        ensures progress { self.new.progress ≡ progress_after result }
        ensures kept { LeavesTables
            (state_of S.Store self.old.store.now) (state_of S.Store self.new.store.now) }
        ensures refuses { OnlyRefuses
            (state_of S.Store self.old.store.now) (state_of S.Store self.new.store.now) result }
        ensures fault { IfErr result (λ e. e ≢ StoreFault.WrongVersion) }
        ensures blames { MismatchMeansBadRow
            (state_of S.Store self.old.store.now) (state_of S.Store self.new.store.now) result }
    {
        match self.progress {
            Progress::Reading => self.read(),
            Progress::Over => Ok(None),
            Progress::Spent => Err(StoreFault::Refused),
        }
    }

    /// The next row, or none after the last.
    fn read(&mut self) -> Result<Option<(RequestRow, Option<Minute>)>, StoreFault>
        requires { self.old.progress ≡ Progress.Reading }
        ensures same_reference { self.new.store.ghost_name ≡ self.old.store.ghost_name }
        ensures given { TellsDated (GivesNext S.Store self.old self.new)
            (state_of S.Store self.old.store.now) (state_of S.Store self.new.store.now) result }
        ensures progress { self.new.progress ≡ progress_after result }
        ensures kept { LeavesTables
            (state_of S.Store self.old.store.now) (state_of S.Store self.new.store.now) }
        ensures blames { MismatchMeansBadRow
            (state_of S.Store self.old.store.now) (state_of S.Store self.new.store.now) result }
    {
        match self.store.next_of(&mut self.source) {
            Ok(Some(row)) => Ok(Some(row)),
            Ok(None) => {
                self.progress = Progress::Over;
                Ok(None)
            }
            Err(fault) => {
                self.progress = Progress::Spent;
                Err(fault)
            }
        }
    }
}

impl<S: Alter> Drop for RequestRows<'_, S> {
    fn drop(self)
        ensures { self.exit.0.now ≡ self.entry.store.now }
    {
        let RequestRows {
            store: _,
            source: _,
            progress: _,
        } = self;
    }
}
