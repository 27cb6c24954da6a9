//! The due moments that tables keep are renewed by the settings that are attached.
ghost use Rattle.std.specs.Prelude.{◌≡◌, ℕ, true, length, IfErr, IfOk, List, Ok};
ghost use Rattle.hours_core.specs.declared.stay.Stay as stay;
ghost use Rattle.store_tables.specs.declared.fault.StoreFault.{StoreFault};
ghost use Rattle.store_core.specs.Seen.{state_of};
ghost use Rattle.report_core.specs.Rows.{QueuesRise};
ghost use Rattle.service_core.specs.Attaching.{StaysUnlessDone, knows_names};
ghost use Rattle.service_core.specs.Renewing as renewing;
ghost use Rattle.service_core.specs.Renewing.{AreApart, AreRenewedFrom, StaysRise};

use crate::stays::{apart, stays_among};
use desk_core::{QueueRow, RequestRow, due_of};
use hours_core::{Minute, Stay};
use report_core::queue_named;
use settings_core::Settings;
use std::alloc::{AllocError, Global};
use store_core::{Backend, Store, StoreFault};

/// What came of settings that are attached to tables, where nothing of the store was refused.
#[derive(Clone, Copy)]
pub(crate) enum Renewal {
    /// The due moments are those by the settings.
    Done,
    /// The settings lack a name of the tables, which stay as they are.
    UnknownName,
    /// There was no memory for the due moments. The tables stay as they are.
    NoMemory,
}

/// Writes the due moment of each of these requests for which the tables keep another one: all of
/// them, or none. They are those of the tables, and so are the queues and the stays, beside which
/// the numbers of their requests stand. Unless that is done the tables stay as they are, whatever
/// rows they have.
pub(crate) fn renew<S: Backend>(
    alloc: Global,
    store: &mut Store<S>,
    settings: &Settings,
    queues: &[QueueRow],
    stays: Vec<(u32, Stay)>,
    dated: &[(RequestRow, Option<Minute>)],
) -> Result<Renewal, StoreFault>
    ensures known { IfOk result (λ came. knows_names came ≡ true) }
    ensures renewed { result ≡ Ok Renewal.Done
        → AreRenewedFrom settings.now queues.now stays.items dated.now
        (state_of S.Store store.old) (state_of S.Store store.new) }
    ensures left { StaysUnlessDone result
        (state_of S.Store store.old) (state_of S.Store store.new) }
    ensures fault { IfErr result (λ e. e ≡ StoreFault.Refused) }
{
    match renewals(alloc, settings, queues, stays, dated) {
        Ok(dues) => {
            store.set_due_times(dues.as_slice())?;
            Ok(Renewal::Done)
        }
        Err(_) => Ok(Renewal::NoMemory),
    }
}

/// The due moment of each of these rows that keeps another one, with the number of its request.
fn renewals(
    alloc: Global,
    settings: &Settings,
    queues: &[QueueRow],
    stays: Vec<(u32, Stay)>,
    dated: &[(RequestRow, Option<Minute>)],
) -> Result<Vec<(u32, Option<Minute>)>, AllocError>
    ensures { QueuesRise queues.now → StaysRise stays.items → IfOk result (λ dues.
        dues.items ≡ renewing.renewals settings.now queues.now stays.items dated.now) }
{
    let (numbers, stays) = apart(alloc, stays)?;
    let (numbers, stays) = (numbers.as_slice(), stays.as_slice());
    renewals_by(alloc, settings, queues, numbers, stays, dated)
}

/// The same, by stays in the order of their requests' numbers; `numbers` has that number for each.
fn renewals_by(
    alloc: Global,
    settings: &Settings,
    queues: &[QueueRow],
    numbers: &[u32],
    stays: &[Stay],
    dated: &[(RequestRow, Option<Minute>)],
) -> Result<Vec<(u32, Option<Minute>)>, AllocError>
    requires { length numbers.now ≡ length stays.now }
    ensures { (all : List (ℕ × stay.Stay)) → QueuesRise queues.now → StaysRise all
        → AreApart all numbers.now stays.now → IfOk result (λ dues.
        dues.items ≡ renewing.renewals settings.now queues.now all dated.now) }
{
    let mut dues = Vec::new(alloc);
    for (row, kept) in dated {
        let own = stays_among(numbers, stays, row.id);
        let due = due_with(settings, queues, own, row);
        if !is_same_moment(&due, kept) {
            dues.push((row.id, due))?;
        }
    }
    Ok(dues)
}

/// When a request with these stays is due, of queues in the order of their names.
fn due_with(
    settings: &Settings,
    queues: &[QueueRow],
    stays: &[Stay],
    row: &RequestRow,
) -> Option<Minute>
    ensures { QueuesRise queues.now
        → result ≡ renewing.due_with settings.now queues.now stays.now row.now }
{
    match queue_named(queues, &row.queue) {
        Some(queue) => due_of(settings, queue, row, stays),
        None => None,
    }
}

fn is_same_moment(one: &Option<Minute>, other: &Option<Minute>) -> bool
    ensures { result ≡ renewing.is_same_moment one.now other.now }
{
    match (one, other) {
        (None, None) => true,
        (Some(one), Some(other)) => one == other,
        _ => false,
    }
}
