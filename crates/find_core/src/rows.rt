//! Where rows stand, and what is told of them.
ghost use Rattle.std.specs.Prelude.{◌≡◌, IfOk};
ghost use Rattle.std.specs.Option.{option_map};
ghost use Rattle.report_core.specs.Rows.{QueuesRise, RowsRise};
ghost use Rattle.find_core.specs.Conditions.{texts_sought};
ghost use Rattle.find_core.specs.Find as find;
ghost use Rattle.find_core.specs.Find.{last_of, replies_of};
ghost use Rattle.find_core.specs.Places as places;
ghost use Rattle.find_core.specs.Words as words;
ghost use Rattle.find_core.specs.Rows as judged;

use crate::conditions::class_of;
use crate::search::{Found, Order, Place, Search, key_of_due};
use crate::words::has_words;
use desk_core::{Entry, QueueRow, RequestRow};
use hours_core::Minute;
use lifecycle_core::Class;
use report_core::queue_named;
use settings_core::Settings;
use std::alloc::AllocError;
use text_core::{Text, Texts};

/// Where a row stands, if the words of the search are found in it, or among the entries that are
/// told of it.
pub fn place_if(
    search: &Search,
    dated: &(RequestRow, Option<Minute>),
    entries: &[Entry],
) -> Option<Place>
    ensures { result ≡ judged.place_if search.now dated.now entries.now }
{
    if is_sought(search, &dated.0.subject, entries) {
        Some(place(search.order, dated, entries))
    } else {
        None
    }
}

/// Whether the words of the search are found.
fn is_sought(search: &Search, subject: &Text, entries: &[Entry]) -> bool
    ensures { result ≡ words.has_words search.now.words
        (texts_sought search.now subject.now (replies_of entries.now)) }
{
    let words = search.words.as_slice();
    if search.in_replies {
        has_words(words, subject, entries)
    } else {
        has_words(words, subject, &[])
    }
}

/// Where a row of which these entries are told stands in an order.
fn place(order: Order, dated: &(RequestRow, Option<Minute>), entries: &[Entry]) -> Place
    ensures { result ≡ places.place_in order dated.now.0.id dated.now.1
        (last_of dated.now.0.created entries.now) }
{
    let (row, due) = dated;
    Place {
        key: match order {
            Order::ByNumber => u64::from(row.id),
            Order::ByDue => key_of_due(*due),
            Order::ByLast => u64::from(last(row.created, entries).get()),
        },
        id: row.id,
    }
}

/// The moment of the last of the entries, or this one where there is none.
pub fn last(filed: Minute, entries: &[Entry]) -> Minute
    ensures { result ≡ last_of filed entries.now }
{
    let mut last = filed;
    for entry in entries {
        last = entry.moment;
    }
    last
}

/// The row of that number, of rows in the order of their numbers.
pub fn row_at(
    rows: &[(RequestRow, Option<Minute>)],
    id: u32,
) -> Option<&(RequestRow, Option<Minute>)>
    ensures { RowsRise rows.now → option_map (λ d. d.now) result ≡ judged.row_among rows.now id }
{
    let index = rows.partition_point(|dated| dated.0.id < id);
    let rest = &rows[index..];
    numbered_only(rest.first(), id)
}

/// The row, if it has that number.
fn numbered_only(
    dated: Option<&(RequestRow, Option<Minute>)>,
    id: u32,
) -> Option<&(RequestRow, Option<Minute>)>
    ensures { option_map (λ d. d.now) result
        ≡ judged.numbered_only id (option_map (λ d. d.now) dated.entry) }
{
    match dated {
        Some(dated) if dated.0.id == id => Some(dated),
        _ => None,
    }
}

/// A row with its due moment as it is found, with its requestors and the moment of the last entry
/// that is told. The queues stand in the order of their names. `AllocError` where memory is refused.
pub fn found(
    settings: &Settings,
    queues: &[QueueRow],
    dated: &(RequestRow, Option<Minute>),
    requestors: Texts,
    last: Minute,
) -> Result<Found, AllocError>
    ensures { QueuesRise queues.now → IfOk result
        (λ found. found ≡ judged.found_by settings.now queues.now last requestors dated.now) }
{
    let (row, due) = dated;
    let class = class_of(settings, queue_named(queues, &row.queue), &row.status);
    let copy = row.clone()?;
    Ok(found_in(class, *due, last, requestors, copy))
}

/// A row as it is found, with these besides.
fn found_in(
    class: Option<Class>,
    due: Option<Minute>,
    last: Minute,
    requestors: Texts,
    row: RequestRow,
) -> Found
    ensures { result ≡ find.found_with class due last requestors row }
{
    let RequestRow {
        id,
        queue,
        subject,
        status,
        owner,
        level,
        created,
        turn,
        ..
    } = row;
    drop(level);
    Found {
        id,
        queue,
        status,
        class,
        owner,
        turn,
        due,
        subject,
        requestors,
        filed: created,
        last,
    }
}
