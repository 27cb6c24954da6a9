//! What each queue has open, and how much of that is late.
ghost use Rattle.std.specs.Prelude.{◌≡◌, ◌<◌, ◌^◌, None, IfOk, false, filter, map};
ghost use Rattle.desk_model.specs.Rights as rights;
ghost use Rattle.report_core.specs.Rows.{QueuesRise, RowsRise};
ghost use Rattle.find_core.specs.Loads as loads;
ghost use Rattle.find_core.specs.Loads.{LoadsRise, counted_in};

use crate::conditions::is_due;
use crate::search::{Order, OwnerAsked, Search, StatusAsked};
use desk_core::{QueueRow, RequestRow, sees_queue};
use hours_core::Minute;
use settings_core::Settings;
use std::alloc::{AllocError, Global};
use text_core::{Sequence, Text, Texts};

/// What a queue has open, of the requests that a person may show.
#[derive(Drop)]
pub struct QueueLoad {
    pub queue: QueueRow,
    /// How many of its requests have an initial or active status.
    pub open: u32,
    /// How many of those were due before the moment.
    pub late: u32,
}

/// The search for what is open in all queues.
pub fn open_ones(alloc: Global) -> Search
    ensures { result ≡ loads.open_in None false }
{
    Search {
        words: Texts::from(Vec::new(alloc)),
        in_replies: false,
        queue: None,
        status: StatusAsked::Open,
        owner: OwnerAsked::Anyone,
        requestor: None,
        turn: None,
        late: false,
        filed_from: None,
        filed_to: None,
        order: Order::ByNumber,
        descending: false,
    }
}

/// Those of the queues that the person may see.
pub fn queues_seen(settings: &Settings, person: &str, mut queues: Vec<QueueRow>) -> Vec<QueueRow>
    ensures { result.items ≡ filter (rights.sees_queue settings.now person.now) queues.items }
{
    queues.retain(|queue| sees_queue(settings, person, queue));
    queues
}

/// What each of the queues, in the order of their names, has of these rows of open requests, in the
/// order of their numbers, and how much of it was due before the moment. `AllocError` where memory
/// is refused.
pub fn queue_loads(
    alloc: Global,
    at: u32,
    queues: Vec<QueueRow>,
    rows: &[(RequestRow, Option<Minute>)],
) -> Result<Sequence<QueueLoad>, AllocError>
    ensures { QueuesRise queues.items → RowsRise rows.now
        → IfOk result (λ told. told ≡ map (loads.load_of at rows.now) queues.items) }
{
    let mut loads = no_loads(alloc, queues)?;
    for (row, due) in rows {
        // rows whose numbers rise are no more than there are numbers, so no count is too great
        let _number = number_of(row);
        count_in(&mut loads, &row.queue, is_due(at, true, *due));
    }
    Ok(Sequence::from(loads))
}

/// The number of a request, which has 32 bits.
fn number_of(row: &RequestRow) -> u32
    ensures is { result ≡ row.now.id }
    ensures fits { result < 2 ^ 32 }
{
    row.id
}

/// The queues, with nothing open yet.
fn no_loads(alloc: Global, queues: Vec<QueueRow>) -> Result<Vec<QueueLoad>, AllocError>
    ensures { IfOk result (λ told. told.items ≡ map loads.no_load queues.items) }
{
    queues
        .into_iter()
        .map(|queue| no_load(queue))
        .collect(alloc)
}

fn no_load(queue: QueueRow) -> QueueLoad
    ensures { result ≡ loads.no_load queue }
{
    QueueLoad {
        queue,
        open: 0,
        late: 0,
    }
}

/// Counts one request more for the queue of that name, if it is among these, which stand in the
/// order of their names.
fn count_in(loads: &mut Vec<QueueLoad>, queue: &Text, is_late: bool)
    ensures { LoadsRise loads.old.items
        → loads.new.items ≡ map (counted_in queue.now is_late) loads.old.items }
{
    let index = loads.partition_point(|load| load.queue.name.as_str() < queue.as_str());
    if index < loads.len() && *queue == loads[index].queue.name {
        count(&mut loads[index], is_late);
    }
}

/// Counts one request more.
fn count(load: &mut QueueLoad, is_late: bool)
    ensures { load.new ≡ loads.counted is_late load.old }
{
    load.open = load.open.saturating_add(1);
    if is_late {
        load.late = load.late.saturating_add(1);
    }
}
