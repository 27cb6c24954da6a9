//! What each owner has to do.
ghost use Rattle.std.specs.Prelude.{◌≡◌, ◌<◌, ◌^◌, false, map, nat_lt};
ghost use Rattle.std.specs.Prelude.{IfOk, OnOk, unwrap_or};
ghost use Rattle.std.specs.BTreeMap.{get, insert_entry};
ghost use Rattle.std.specs.Option.{option_map, option_map_or};
ghost use Rattle.desk_model.specs.Readings.Workload.{owner_order};
ghost use Rattle.report_core.specs.Rows.{QueuesRise, RowsRise, counted, entries_of, is_live};
ghost use Rattle.report_core.specs.Rows.{live_among, load_in, loads_by, no_counts};

use crate::queues::queue_named;
use desk_model::lifecycles::is_inactive;
use desk_model::{Load, QueueRow, RequestRow};
use hours_core::Minute;
use settings_core::Settings;
use std::alloc::{AllocError, Global};
use std::collections::BTreeMap;
use text_core::Text;

/// How many requests of an owner aren't inactive, and how many of those are late.
#[derive(Clone, Copy)]
struct Counts {
    live: u32,
    overdue: u32,
}

/// The counts of each owner.
type Owners = BTreeMap<Option<Text>, Counts>;

/// What each owner has of the rows that aren't inactive, and how much of it was due before the
/// moment: nobody first, then in the order of the names. The queues stand in the order of their
/// names, and the rows in the order of their numbers. `AllocError` where memory is refused.
pub(crate) fn loads(
    alloc: Global,
    at: u32,
    settings: &Settings,
    queues: &[QueueRow],
    rows: &[(RequestRow, Option<Minute>)],
) -> Result<Vec<Load>, AllocError>
    ensures { QueuesRise queues.now → RowsRise rows.now
        → IfOk result (λ loads. loads.items ≡ loads_by at settings.now queues.now rows.now) }
{
    let owners = owners_of(alloc, at, settings, queues, rows)?;
    told(alloc, owners)
}

/// What each owner has, as it is told.
fn told(alloc: Global, owners: Owners) -> Result<Vec<Load>, AllocError>
    ensures { IfOk result (λ loads. loads.items ≡ map load_in owners.entries) }
{
    owners
        .into_iter()
        .map(|(owner, counts)| load(owner, counts))
        .collect(alloc)
}

/// An owner's counts as they are told.
fn load(owner: Option<Text>, counts: Counts) -> Load
    ensures { result ≡ load_in (owner, counts) }
{
    Load {
        owner,
        live: counts.live,
        overdue: counts.overdue,
    }
}

/// The counts of each owner of these rows.
fn owners_of(
    alloc: Global,
    at: u32,
    settings: &Settings,
    queues: &[QueueRow],
    rows: &[(RequestRow, Option<Minute>)],
) -> Result<Owners, AllocError>
    ensures { QueuesRise queues.now → RowsRise rows.now
        → IfOk result (λ owners. owners.entries
        ≡ entries_of at (live_among settings.now queues.now rows.now)) }
{
    let mut owners = BTreeMap::new(alloc);
    for (row, due) in rows {
        // rows whose numbers rise are no more than there are numbers, so no count is too great
        let _number = number_of(row);
        let queue = queue_named(queues, &row.queue);
        if is_live(settings, queue, row) {
            count(&mut owners, &row.owner, is_late(at, due))?;
        }
    }
    Ok(owners)
}

/// The number of a request, which has 32 bits.
fn number_of(row: &RequestRow) -> u32
    ensures is { result ≡ row.now.id }
    ensures fits { result < 2 ^ 32 }
{
    row.id
}

/// Counts one request more of an owner.
fn count(owners: &mut Owners, owner: &Option<Text>, is_late: bool) -> Result<(), AllocError>
    ensures { OnOk result (owners.new.entries
        ≡ insert_entry owner_order owners.old.entries owner.now
        (counted is_late (unwrap_or (get owner_order owners.old owner.now) no_counts))) }
{
    match owners.get_mut(owner) {
        Some(counts) => {
            *counts = counts.with(is_late);
            Ok(())
        }
        None => {
            owners.insert(owner.clone()?, NO_COUNTS.with(is_late))?;
            Ok(())
        }
    }
}

/// The counts of an owner of nothing.
const NO_COUNTS: Counts = Counts {
    live: 0,
    overdue: 0,
};

impl Counts {
    /// With one request more, late or not.
    fn with(self, is_late: bool) -> Counts
        ensures { result ≡ counted is_late self }
    {
        Counts {
            live: self.live.saturating_add(1),
            overdue: if is_late {
                self.overdue.saturating_add(1)
            } else {
                self.overdue
            },
        }
    }
}

/// Whether the status of a request of this queue isn't inactive.
fn is_live(settings: &Settings, queue: Option<&QueueRow>, row: &RequestRow) -> bool
    ensures { result ≡ is_live settings.now (option_map (λ q. q.now) queue.entry) row.now }
{
    match queue {
        Some(queue) => !is_inactive(
            settings.lifecycle(queue.lifecycle.as_str()),
            row.status.as_str(),
        ),
        None => true,
    }
}

/// Whether that due moment is before the moment.
fn is_late(at: u32, due: &Option<Minute>) -> bool
    ensures { result ≡ option_map_or (λ due. nat_lt due at) due.now false }
{
    match due {
        Some(due) => due.get() < at,
        None => false,
    }
}
