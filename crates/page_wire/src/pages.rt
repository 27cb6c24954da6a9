//! The reply to a page's reading, of what came of its commands.
ghost use Rattle.std.specs.Prelude.{◌≡◌, IfOk, Ok};
ghost use Rattle.std.specs.Option.{option_map};
ghost use Rattle.page_core.specs.Page.{page_bytes};
ghost use Rattle.settings_core.specs.Settings.{levels_of, lifecycles_of};
ghost use Rattle.desk_pages.specs.Home.{home_page};
ghost use Rattle.service_core.specs.Homes.{part_of};
ghost use Rattle.page_wire.specs.Replies as form;

use crate::replies::{refused, with_page};
use desk_core::{Answer, Dossier, QueueRow, Refusal, RequestRow};
use desk_pages::{find_fault_page, find_page, home_page, new_page, request_page, workload_page};
use find_core::{Findings, Home, Order};
use find_form::{FindFault, FindForm, Start, found_page};
use hours_core::Minute;
use lifecycle_core::Lifecycle;
use settings_core::{Named, Settings};
use std::alloc::{AllocError, Global};
use text_core::{Sequence, Text};

/// What came of a command.
type Outcome = Result<Answer, Refusal>;

/// No answer is of another kind than its command; what would be is told as no answer.
fn no_answer(alloc: Global, caller: &str, moment: Minute) -> Result<Vec<u8>, AllocError>
    ensures { IfOk result (λ out. out.items ≡ form.no_answer caller.now moment) }
{
    refused(alloc, caller, moment, &Refusal::Unavailable)
}

/// What was found.
type Found = Result<Findings, Refusal>;

/// The first page, or the refusal.
pub(crate) fn home_reply(
    alloc: Global,
    settings: &Settings,
    caller: &str,
    moment: Minute,
    told: &Result<Home, Refusal>,
) -> Result<Vec<u8>, AllocError>
    ensures { IfOk result (λ out. out.items ≡ form.home_reply settings.now caller.now moment
        (part_of (λ h. h.own) told.now) (part_of (λ h. h.asked) told.now)
        (part_of (λ h. h.loads) told.now) (part_of (λ h. h.free) told.now)) }
{
    match told {
        Ok(told) => {
            let page = home(alloc, settings, caller, moment, told)?;
            with_page(alloc, 200, page)
        }
        Err(refusal) => refused(alloc, caller, moment, refusal),
    }
}

fn home(
    alloc: Global,
    settings: &Settings,
    caller: &str,
    moment: Minute,
    told: &Home,
) -> Result<Vec<u8>, AllocError>
    ensures { IfOk result (λ page. page.items ≡ page_bytes (home_page caller.now moment told.now.own
        told.now.asked told.now.loads told.now.free (form.names_of (lifecycles_of settings.now))
        (form.names_of (levels_of settings.now)))) }
{
    let lifecycles = names_of(alloc, settings.lifecycles())?;
    let levels = names_of(alloc, settings.levels())?;
    let (lifecycles, levels) = (lifecycles.as_slice(), levels.as_slice());
    let (own, asked, free) = (&told.own, &told.asked, &told.free);
    let loads = told.loads.as_slice();
    home_page(
        alloc, caller, moment, own, asked, loads, free, lifecycles, levels,
    )
}

/// The page of a search from there on, of what was found in this order.
pub(crate) fn find_reply(
    alloc: Global,
    caller: &str,
    moment: Minute,
    query: &str,
    start: Start,
    typed: &FindForm,
    order: Order,
    found: Found,
) -> Result<Vec<u8>, AllocError>
    ensures { IfOk result (λ out. out.items
        ≡ form.find_reply caller.now moment query.now start typed.now order found) }
{
    match found {
        Ok(found) => {
            let shown = found_page(order, start, found);
            let page = find_page(alloc, caller, moment, query, start, typed, &shown)?;
            with_page(alloc, 200, page)
        }
        Err(refusal) => refused(alloc, caller, moment, &refusal),
    }
}

/// The page of what was typed and is no search.
pub(crate) fn find_fault_reply(
    alloc: Global,
    caller: &str,
    moment: Minute,
    fault: FindFault,
    typed: &FindForm,
) -> Result<Vec<u8>, AllocError>
    ensures { IfOk result (λ out. out.items
        ≡ form.find_fault_reply caller.now moment fault typed.now) }
{
    let page = find_fault_page(alloc, caller, moment, fault.sentence(), typed)?;
    with_page(alloc, 400, page)
}

/// The names of these.
fn names_of<T>(alloc: Global, all: &[Named<T>]) -> Result<Vec<Text>, AllocError>
    ensures { IfOk result (λ names. names.items ≡ form.names_of all.now) }
{
    let mut names = Vec::new(alloc);
    for named in all {
        names.push(named.name.clone()?)?;
    }
    Ok(names)
}

/// The lifecycle of the queue of that name among these.
fn lifecycle_in<'s>(settings: &'s Settings, queue: &str, rows: &[QueueRow]) -> Option<&'s Lifecycle>
    ensures { option_map (λ l. l.now) result
        ≡ form.lifecycle_in settings.now queue.now rows.now }
{
    match row_named(queue, rows) {
        Some(row) => settings.lifecycle(row.lifecycle.as_str()),
        None => None,
    }
}

/// The queue of that name among these.
fn row_named<'r>(queue: &str, rows: &'r [QueueRow]) -> Option<&'r QueueRow>
    ensures { option_map (λ r. r.now) result ≡ form.row_named queue.now rows.now }
{
    rows.iter().find(|row| row.name.as_str() == queue)
}

/// The page for a new request in a queue, by the queues that were told.
pub(crate) fn new_reply(
    alloc: Global,
    settings: &Settings,
    queue: &str,
    caller: &str,
    moment: Minute,
    outcome: &Outcome,
) -> Result<Vec<u8>, AllocError>
    ensures { IfOk result (λ out. out.items
        ≡ form.new_reply settings.now queue.now caller.now moment outcome.now) }
{
    match outcome {
        Ok(Answer::Queues(rows)) => {
            let lifecycle = lifecycle_in(settings, queue, rows.as_slice());
            let page = asks(alloc, queue, caller, moment, lifecycle)?;
            with_page(alloc, 200, page)
        }
        Ok(_) => no_answer(alloc, caller, moment),
        Err(refusal) => refused(alloc, caller, moment, refusal),
    }
}

fn asks(
    alloc: Global,
    queue: &str,
    caller: &str,
    moment: Minute,
    lifecycle: Option<&Lifecycle>,
) -> Result<Vec<u8>, AllocError>
    ensures { IfOk result (λ page. page.items ≡ page_bytes (form.asks queue.now caller.now moment
        (option_map (λ l. l.now) lifecycle.entry))) }
{
    match lifecycle {
        Some(lifecycle) => new_page(
            alloc,
            queue,
            caller,
            moment,
            lifecycle.on_create(),
            lifecycle.parts().create.as_slice(),
        ),
        None => new_page(alloc, queue, caller, moment, "", &[]),
    }
}

/// The page of who has how much to do.
pub(crate) fn workload_reply(
    alloc: Global,
    caller: &str,
    moment: Minute,
    outcome: &Outcome,
) -> Result<Vec<u8>, AllocError>
    ensures { IfOk result (λ out. out.items
        ≡ form.workload_reply caller.now moment outcome.now) }
{
    match outcome {
        Ok(Answer::Workload(loads)) => {
            let page = workload_page(alloc, caller, moment, loads.as_slice())?;
            with_page(alloc, 200, page)
        }
        Ok(_) => no_answer(alloc, caller, moment),
        Err(refusal) => refused(alloc, caller, moment, refusal),
    }
}

/// The rows of the requests that one is linked with.
type Rows = Result<Sequence<RequestRow>, Refusal>;

/// The page of a request, of its dossier and of the rows of those that it is linked with.
pub(crate) fn request_reply(
    alloc: Global,
    settings: &Settings,
    caller: &str,
    moment: Minute,
    dossier: &Result<Dossier, Refusal>,
    rows: &Rows,
) -> Result<Vec<u8>, AllocError>
    ensures { IfOk result (λ out. out.items
        ≡ form.request_reply settings.now caller.now moment dossier.now rows.now) }
{
    match dossier {
        Ok(dossier) => with_rows(alloc, settings, caller, moment, dossier, rows),
        Err(refusal) => refused(alloc, caller, moment, refusal),
    }
}

fn with_rows(
    alloc: Global,
    settings: &Settings,
    caller: &str,
    moment: Minute,
    dossier: &Dossier,
    rows: &Rows,
) -> Result<Vec<u8>, AllocError>
    ensures { IfOk result (λ out. out.items
        ≡ form.request_reply settings.now caller.now moment (Ok dossier.now) rows.now) }
{
    match rows {
        Ok(rows) => {
            let page = request_page(alloc, caller, moment, settings, dossier, rows.as_slice())?;
            with_page(alloc, 200, page)
        }
        Err(refusal) => refused(alloc, caller, moment, refusal),
    }
}
