//! A request with its people and the number of its entries, of its rows.
ghost use Rattle.std.specs.Prelude.{◌++◌, ◌∷◌, ◌≡◌, IfErr, IfOk, OnOk, []};
ghost use Rattle.desk_model.specs.Desk.{queue_at};
ghost use Rattle.desk_model.specs.Facts as facts;
ghost use Rattle.store_tables.specs.declared.fault.StoreFault.{StoreFault};
ghost use Rattle.store_tables.specs.Readings.{OfDesk, Reads};
ghost use Rattle.desk_model.specs.declared.rows.WatchRole.{WatchRole};
ghost use Rattle.store_core.specs.Found as found;
ghost use Rattle.store_tables.specs.Seen.{seen};

use desk_core::{QueueRow, RequestRow, SeenRequest, WatchRole, Watcher};
use sqlite::Alter;
use std::alloc::Global;
use store_tables::tables::entry::last_number;
use store_tables::tables::queue::queue_named;
use store_tables::tables::request::request_numbered;
use store_tables::tables::watcher::watchers_of;
use store_tables::{StoreFault, Tables};
use text_core::{Text, Texts};

/// The queue with that name, or none.
pub(crate) fn queue_at<S: Alter>(
    tables: &mut Tables<S>,
    name: &Text,
) -> Result<Option<QueueRow>, StoreFault>
    ensures { Reads (OfDesk (λ desk q. q ≡ queue_at desk name.now))
        (seen S.Store tables.old) (seen S.Store tables.new) result }
{
    queue_named(tables, name)
}

/// The queue that a request is filed in, or none.
pub(crate) fn queue_of<S: Alter>(
    tables: &mut Tables<S>,
    request: &Option<SeenRequest>,
) -> Result<Option<QueueRow>, StoreFault>
    ensures { Reads (OfDesk (λ desk q. q ≡ found.queue_by desk request.now))
        (seen S.Store tables.old) (seen S.Store tables.new) result }
{
    match request {
        Some(request) => queue_at(tables, &request.row.queue),
        None => Ok(None),
    }
}

/// The request with that number, with its people and the number of its entries, or none.
pub(crate) fn seen_request_at<S: Alter>(
    alloc: Global,
    tables: &mut Tables<S>,
    id: u32,
) -> Result<Option<SeenRequest>, StoreFault>
    ensures { Reads (OfDesk (λ desk request. request ≡ facts.seen_request_at desk id))
        (seen S.Store tables.old) (seen S.Store tables.new) result }
{
    match request_numbered(tables, id)? {
        None => Ok(None),
        Some(row) => {
            let entry_count = last_number(tables, id)?;
            let watchers = watchers_of(alloc, tables, id)?;
            let seen_request = seen_request_of(alloc, row, watchers, entry_count)?;
            Ok(Some(seen_request))
        }
    }
}

/// A request's row with the persons among its watchers, whose names move there, and the number of
/// its entries.
fn seen_request_of(
    alloc: Global,
    row: RequestRow,
    watchers: Vec<Watcher>,
    entry_count: u32,
) -> Result<SeenRequest, StoreFault>
    ensures ok { IfOk result
        (λ request. request ≡ found.seen_request_of row watchers.items entry_count) }
    ensures fault { IfErr result (λ e. e ≡ StoreFault.Refused) }
{
    let mut requestors = Vec::new(alloc);
    let mut cc = Vec::new(alloc);
    let mut admin_cc = Vec::new(alloc);
    for watcher in watchers {
        put_watcher(&mut requestors, &mut cc, &mut admin_cc, watcher)?;
    }
    Ok(SeenRequest {
        row,
        requestors: Texts::from(requestors),
        cc: Texts::from(cc),
        admin_cc: Texts::from(admin_cc),
        entry_count,
    })
}

/// Puts the person at the end of those of the role.
fn put_watcher(
    requestors: &mut Vec<Text>,
    cc: &mut Vec<Text>,
    admin_cc: &mut Vec<Text>,
    watcher: Watcher,
) -> Result<(), StoreFault>
    ensures requestors { OnOk result (requestors.new.items
        ≡ requestors.old.items ++ found.persons_in WatchRole.Requestor (watcher ∷ [])) }
    ensures cc { OnOk result (cc.new.items
        ≡ cc.old.items ++ found.persons_in WatchRole.Cc (watcher ∷ [])) }
    ensures admin_cc { OnOk result (admin_cc.new.items
        ≡ admin_cc.old.items ++ found.persons_in WatchRole.AdminCc (watcher ∷ [])) }
    ensures fault { IfErr result (λ e. e ≡ StoreFault.Refused) }
{
    let Watcher {
        id: _,
        role,
        person,
    } = watcher;
    match role {
        WatchRole::Requestor => put_person(requestors, person),
        WatchRole::Cc => put_person(cc, person),
        WatchRole::AdminCc => put_person(admin_cc, person),
    }
}

fn put_person(persons: &mut Vec<Text>, person: Text) -> Result<(), StoreFault>
    ensures ok { OnOk result (persons.new.items ≡ persons.old.items ++ person ∷ []) }
    ensures fault { IfErr result (λ e. e ≡ StoreFault.Refused) }
{
    match persons.push(person) {
        Ok(()) => Ok(()),
        Err(_) => Err(StoreFault::Refused),
    }
}
