//! The statements of a change, in the order in which it is applied.
ghost use Rattle.std.specs.Prelude.{◌≡◌, fold, IfErr, IfOk, length};
ghost use Rattle.std.specs.Option.{option_copied};
ghost use Rattle.sqlite.specs.Held.{state};
ghost use Rattle.store_tables.specs.Calls.{StatementChanges};
ghost use Rattle.store_tables.specs.Contents.{add_entry};
ghost use Rattle.store_tables.specs.Contents.{add_watcher, drop_watcher as without_watcher};
ghost use Rattle.store_tables.specs.declared.fault.StoreFault.{StoreFault};
ghost use Rattle.store_core.specs.Written.{link_added, link_dropped, queue_added};
ghost use Rattle.store_core.specs.Written.{request_added, request_set, written};
ghost use Rattle.store_core.specs.Written as spec;

use desk_core::{Change, Entry, RequestRow};
use hours_core::{Minute, Stay};
use sqlite::{Alter, Transaction};
use store_tables::StoreFault;
use store_tables::tables::request::{put_request, set_request};
use store_tables::tables::stay::{end_stay, put_stay};
use store_tables::written::{put_all, put_any, take_all, take_any};

/// Adds the request with its due moment, if there is one.
fn file_request<S: Alter>(
    tx: &mut Transaction<'_, S>,
    filed: &Option<RequestRow>,
    due: Option<Minute>,
) -> Result<(), StoreFault>
    ensures same_reference { tx.new.conn.ghost_name ≡ tx.old.conn.ghost_name }
    ensures filed { StatementChanges (request_added filed.now due)
        (state S.Store tx.old.conn.now) (state S.Store tx.new.conn.now) result }
{
    match filed {
        Some(row) => put_request(tx, row, due),
        None => Ok(()),
    }
}

/// Sets the row of a request and its due moment, if there is one.
fn revise_request<S: Alter>(
    tx: &mut Transaction<'_, S>,
    row: &Option<RequestRow>,
    due: Option<Minute>,
) -> Result<(), StoreFault>
    ensures same_reference { tx.new.conn.ghost_name ≡ tx.old.conn.ghost_name }
    ensures set { StatementChanges (request_set row.now due)
        (state S.Store tx.old.conn.now) (state S.Store tx.new.conn.now) result }
{
    match row {
        Some(row) => set_request(tx, row, due),
        None => Ok(()),
    }
}

/// Writes the queue and the rows of requests.
fn write_rows<S: Alter>(tx: &mut Transaction<'_, S>, change: &Change) -> Result<(), StoreFault>
    ensures same_reference { tx.new.conn.ghost_name ≡ tx.old.conn.ghost_name }
    ensures made { StatementChanges (λ c. request_set change.now.row (change.now.due)
        (request_added change.now.filed (change.now.due) (queue_added change.now.queue c)))
        (state S.Store tx.old.conn.now) (state S.Store tx.new.conn.now) result }
{
    put_any(tx, &change.queue)?;
    file_request(tx, &change.filed, change.due)?;
    revise_request(tx, &change.row, change.due)
}

/// Puts persons into roles, and takes persons out of roles.
fn write_persons<S: Alter>(tx: &mut Transaction<'_, S>, change: &Change) -> Result<(), StoreFault>
    ensures same_reference { tx.new.conn.ghost_name ≡ tx.old.conn.ghost_name }
    ensures made { StatementChanges (λ c. fold without_watcher (fold add_watcher c change.now.put)
        change.now.taken)
        (state S.Store tx.old.conn.now) (state S.Store tx.new.conn.now) result }
{
    put_all(tx, change.put.as_slice())?;
    take_all(tx, change.taken.as_slice())
}

/// Adds a link, and takes one out.
fn write_links<S: Alter>(tx: &mut Transaction<'_, S>, change: &Change) -> Result<(), StoreFault>
    ensures same_reference { tx.new.conn.ghost_name ≡ tx.old.conn.ghost_name }
    ensures made { StatementChanges (λ c. link_dropped change.now.unlinked (link_added change.now.linked c))
        (state S.Store tx.old.conn.now) (state S.Store tx.new.conn.now) result }
{
    put_any(tx, &change.linked)?;
    take_any(tx, &change.unlinked)
}

/// The request on which one of the entries begins a stay, if one does.
fn begun_on(entries: &[Entry]) -> Option<u32>
    ensures { result ≡ spec.begun_on entries.now }
{
    entries
        .iter()
        .find(|entry| entry.kind.begins_stay())
        .map(|entry| entry.id)
}

/// Ends the stay of that number, if the number isn't 0.
fn end_before<S: Alter>(
    tx: &mut Transaction<'_, S>,
    id: u32,
    number: u32,
    until: Minute,
) -> Result<(), StoreFault>
    ensures same_reference { tx.new.conn.ghost_name ≡ tx.old.conn.ghost_name }
    ensures ended { StatementChanges (spec.stay_ended id number until)
        (state S.Store tx.old.conn.now) (state S.Store tx.new.conn.now) result }
{
    if number == 0 {
        Ok(())
    } else {
        end_stay(tx, id, number, until)
    }
}

/// Puts a stay under its number, if there is one, and ends the one before it where it begins.
fn put_last<S: Alter>(
    tx: &mut Transaction<'_, S>,
    id: u32,
    number: u32,
    last: Option<&Stay>,
) -> Result<(), StoreFault>
    ensures same_reference { tx.new.conn.ghost_name ≡ tx.old.conn.ghost_name }
    ensures put { StatementChanges (spec.stay_put id number (option_copied last.entry))
        (state S.Store tx.old.conn.now) (state S.Store tx.new.conn.now) result }
{
    match last {
        None => Ok(()),
        Some(stay) => {
            end_before(tx, id, number.saturating_sub(1), stay.from)?;
            put_stay(tx, id, number, stay)
        }
    }
}

/// How many stays there are.
fn count_stays(stays: &[Stay]) -> Result<u32, StoreFault>
    ensures ok { IfOk result (λ n. n ≡ length stays.now) }
    ensures fault { IfErr result (λ e. e ≡ StoreFault.Refused) }
{
    match u32::try_from(stays.len()) {
        Ok(count) => Ok(count),
        Err(_) => Err(StoreFault::Refused),
    }
}

/// Puts the last of the stays of a request, and ends the one before it where it begins.
fn begin_stay<S: Alter>(
    tx: &mut Transaction<'_, S>,
    id: u32,
    stays: &[Stay],
) -> Result<(), StoreFault>
    ensures same_reference { tx.new.conn.ghost_name ≡ tx.old.conn.ghost_name }
    ensures begun { StatementChanges (spec.stay_put id (length stays.now) (spec.last_of stays.now))
        (state S.Store tx.old.conn.now) (state S.Store tx.new.conn.now) result }
{
    let count = count_stays(stays)?;
    put_last(tx, id, count, stays.last())
}

/// Begins a stay, if an entry of the change does.
fn write_stay<S: Alter>(tx: &mut Transaction<'_, S>, change: &Change) -> Result<(), StoreFault>
    ensures same_reference { tx.new.conn.ghost_name ≡ tx.old.conn.ghost_name }
    ensures made { StatementChanges (spec.stay_begun (spec.begun_on change.now.entries) change.now.stays)
        (state S.Store tx.old.conn.now) (state S.Store tx.new.conn.now) result }
{
    match begun_on(change.entries.as_slice()) {
        Some(id) => begin_stay(tx, id, change.stays.as_slice()),
        None => Ok(()),
    }
}

/// Adds the entries, and the stay that one of them begins.
fn write_history<S: Alter>(tx: &mut Transaction<'_, S>, change: &Change) -> Result<(), StoreFault>
    ensures same_reference { tx.new.conn.ghost_name ≡ tx.old.conn.ghost_name }
    ensures made { StatementChanges (λ c. spec.stay_begun (spec.begun_on change.now.entries) change.now.stays
        (fold add_entry c change.now.entries))
        (state S.Store tx.old.conn.now) (state S.Store tx.new.conn.now) result }
{
    put_all(tx, change.entries.as_slice())?;
    write_stay(tx, change)
}

/// Writes a change, in a transaction that goes on.
pub(crate) fn write_change<S: Alter>(
    tx: &mut Transaction<'_, S>,
    change: &Change,
) -> Result<(), StoreFault>
    ensures same_reference { tx.new.conn.ghost_name ≡ tx.old.conn.ghost_name }
    ensures made { StatementChanges (written change.now)
        (state S.Store tx.old.conn.now) (state S.Store tx.new.conn.now) result }
{
    write_rows(tx, change)?;
    write_persons(tx, change)?;
    write_links(tx, change)?;
    write_history(tx, change)
}
