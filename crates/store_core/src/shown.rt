//! Whether a request may be shown, and its row if it may, by its row and its watchers alone.
ghost use Rattle.std.specs.Prelude.{◌≡◌, ◌≢◌, IfErr, if◌then◌else◌};
ghost use Rattle.desk_model.specs.Rights as rights;
ghost use Rattle.desk_model.specs.View.{view};
ghost use Rattle.store_tables.specs.declared.fault.StoreFault.{StoreFault};
ghost use Rattle.store_tables.specs.Calls.{OnlyRefuses, LeavesTables, Tells};
ghost use Rattle.store_tables.specs.Readings.{MismatchMeansBadRow, OfDesk, Reads};
ghost use Rattle.store_core.specs.Found.{request_row_at};
ghost use Rattle.store_core.specs.Seen.{state_of};
ghost use Rattle.store_tables.specs.Seen.{seen};

use crate::store::Store;
use desk_core::{RequestRow, may_show};
use settings_core::Settings;
use sqlite::Alter;
use std::alloc::Global;
use store_tables::tables::request::request_numbered;
use store_tables::tables::watcher::watchers_of;
use store_tables::{StoreFault, Tables};

impl<S: Alter> Store<S> {
    /// Whether the request with that number is there and the person may show it, by two reads.
    /// `Mismatch` where a row is no value of its type, `Refused` where the store or memory refuses
    /// it, or a key has two rows. The tables stay as they are.
    pub fn is_shown(
        &mut self,
        alloc: Global,
        settings: &Settings,
        person: &str,
        id: u32,
    ) -> Result<bool, StoreFault>
        ensures told { Tells (λ desk shown. shown
            ≡ rights.is_shown settings.now person.now desk id)
            (state_of S.Store self.old) (state_of S.Store self.new) result }
        ensures kept { LeavesTables (state_of S.Store self.old) (state_of S.Store self.new) }
        ensures refuses { OnlyRefuses
            (state_of S.Store self.old) (state_of S.Store self.new) result }
        ensures fault { IfErr result (λ e. e ≢ StoreFault.WrongVersion) }
        ensures blames { MismatchMeansBadRow (state_of S.Store self.old) (state_of S.Store self.new) result }
    {
        is_shown_to(alloc, &mut self.tables, settings, person, id)
    }

    /// The row of the request with that number, if it is there and the person may show it, by two
    /// reads. `Mismatch` where a row is no value of its type, `Refused` where the store or memory
    /// refuses it, or a key has two rows. The tables stay as they are.
    pub fn shown_row(
        &mut self,
        alloc: Global,
        settings: &Settings,
        person: &str,
        id: u32,
    ) -> Result<Option<RequestRow>, StoreFault>
        ensures told { Tells (λ desk row. row
            ≡ request_row_at (view settings.now person.now desk) id)
            (state_of S.Store self.old) (state_of S.Store self.new) result }
        ensures kept { LeavesTables (state_of S.Store self.old) (state_of S.Store self.new) }
        ensures refuses { OnlyRefuses
            (state_of S.Store self.old) (state_of S.Store self.new) result }
        ensures fault { IfErr result (λ e. e ≢ StoreFault.WrongVersion) }
        ensures blames { MismatchMeansBadRow (state_of S.Store self.old) (state_of S.Store self.new) result }
    {
        row_shown_to(alloc, &mut self.tables, settings, person, id)
    }
}

fn is_shown_to<S: Alter>(
    alloc: Global,
    tables: &mut Tables<S>,
    settings: &Settings,
    person: &str,
    id: u32,
) -> Result<bool, StoreFault>
    ensures { Reads (OfDesk (λ desk shown. shown
        ≡ rights.is_shown settings.now person.now desk id))
        (seen S.Store tables.old) (seen S.Store tables.new) result }
{
    let row = row_shown_to(alloc, tables, settings, person, id)?;
    Ok(row.is_some())
}

fn row_shown_to<S: Alter>(
    alloc: Global,
    tables: &mut Tables<S>,
    settings: &Settings,
    person: &str,
    id: u32,
) -> Result<Option<RequestRow>, StoreFault>
    ensures { Reads (OfDesk (λ desk row. row
        ≡ request_row_at (view settings.now person.now desk) id))
        (seen S.Store tables.old) (seen S.Store tables.new) result }
{
    match request_numbered(tables, id)? {
        None => Ok(None),
        Some(row) => {
            let watchers = watchers_of(alloc, tables, id)?;
            let shows = may_show(settings, person, &row, watchers.as_slice());
            Ok(row_if(shows, row))
        }
    }
}

/// The row, if it may be shown.
fn row_if(shows: bool, row: RequestRow) -> Option<RequestRow>
    ensures { result ≡ (if shows then Some row else None) }
{
    if shows { Some(row) } else { None }
}
