//! What the commands that report answer, of the tables: the rows are read here, and told by
//! `report_core`.
ghost use Rattle.std.specs.Prelude.{◌≡◌, IfErr, filter};
ghost use Rattle.desk_model.specs.Readings.Listing as listing;
ghost use Rattle.desk_model.specs.Readings.Overdue as overdue;
ghost use Rattle.desk_model.specs.Readings.Workload as workload;
ghost use Rattle.desk_model.specs.Told as reports;
ghost use Rattle.store_tables.specs.Calls.{LeavesTables};
ghost use Rattle.store_core.specs.Due.{TellsDue};
ghost use Rattle.store_core.specs.Seen.{state_of};

use desk_core::{Call, LateLine, Line, Load, Refusal};
use settings_core::Settings;
use std::alloc::Global;
use store_core::{Backend, Store};
use text_core::{Sequence, Text};

/// A line for each request of the queue that the caller may show, with the due moments that the
/// tables keep. `Unavailable` where memory or the store refused. The tables stay as they are.
#[tactic(auto, using(store_tables::proofs::Spared::joined, store_tables::proofs::Spared::stands))]
pub fn list<S: Backend>(
    alloc: Global,
    store: &mut Store<S>,
    settings: &Settings,
    caller: &str,
    queue: &Text,
) -> Result<Sequence<Line>, Refusal>
    ensures told { TellsDue settings.now (λ desk lines. lines
        ≡ listing.lines_of queue.now (reports.told settings.now caller.now desk))
        (state_of S.Store store.old) (state_of S.Store store.new) result }
    ensures kept { LeavesTables (state_of S.Store store.old) (state_of S.Store store.new) }
    ensures fault { IfErr result (λ refusal. refusal ≡ Refusal.Unavailable) }
{
    let watches = store.watches_of(alloc, caller)?;
    let rows = store.dated_requests_of(alloc, queue)?;
    let own = watches.as_slice();
    let lines = report_core::list(alloc, settings, caller, own, rows)?;
    Ok(lines)
}

/// A line for each request that the caller may show and that was due before the moment, by the due
/// moments that the tables keep. `Unavailable` where memory or the store refused. The tables stay
/// as they are.
#[tactic(auto, using(store_tables::proofs::Spared::joined, store_tables::proofs::Spared::stands))]
pub fn overdue<S: Backend>(
    alloc: Global,
    store: &mut Store<S>,
    call: Call<'_>,
) -> Result<Sequence<LateLine>, Refusal>
    ensures told { TellsDue call.entry.settings.now
        (λ desk lines. lines ≡ overdue.lines_of call.entry.at
        (reports.told call.entry.settings.now call.entry.caller.now desk))
        (state_of S.Store store.old) (state_of S.Store store.new) result }
    ensures kept { LeavesTables (state_of S.Store store.old) (state_of S.Store store.new) }
    ensures fault { IfErr result (λ refusal. refusal ≡ Refusal.Unavailable) }
{
    let watches = store.watches_of(alloc, call.caller)?;
    let rows = store.requests_due_before(alloc, call.at)?;
    let own = watches.as_slice();
    let (at, settings, caller) = (call.at, call.settings, call.caller);
    let lines = report_core::overdue(alloc, at, settings, caller, own, rows)?;
    Ok(lines)
}

/// What each owner has of the requests that the caller may show, by the due moments that the tables
/// keep. `Unavailable` where memory or the store refused. The tables stay as they are.
#[tactic(auto, using(store_tables::proofs::Spared::joined, store_tables::proofs::Spared::stands))]
pub fn workload<S: Backend>(
    alloc: Global,
    store: &mut Store<S>,
    call: Call<'_>,
) -> Result<Sequence<Load>, Refusal>
    ensures told { TellsDue call.entry.settings.now (λ desk loads. loads
        ≡ workload.loads call.entry.at (filter (λ r. r.is_live)
        (reports.told call.entry.settings.now call.entry.caller.now desk)))
        (state_of S.Store store.old) (state_of S.Store store.new) result }
    ensures kept { LeavesTables (state_of S.Store store.old) (state_of S.Store store.new) }
    ensures fault { IfErr result (λ refusal. refusal ≡ Refusal.Unavailable) }
{
    let watches = store.watches_of(alloc, call.caller)?;
    let queues = store.queues(alloc)?;
    let rows = store.dated_requests(alloc)?;
    let (watches, queues) = (watches.as_slice(), queues.as_slice());
    let (at, settings, caller) = (call.at, call.settings, call.caller);
    let loads = report_core::workload(alloc, at, settings, caller, watches, queues, rows)?;
    Ok(loads)
}
