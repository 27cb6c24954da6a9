//! Which of what was found a page shows.

ghost use Rattle.std.specs.Prelude.{◌≡◌, nat_lt, length};
ghost use Rattle.std.specs.Option.{option_map};
ghost use Rattle.find_form.specs.Shown as spec;

use find_core::{Findings, Found, Order, Place};
use text_core::Sequence;

/// The most rows of a page. A search for it asks for one more, to see whether there are more.
pub const PAGE_ROWS: u32 = 100;

/// Where a page of what is found begins.
#[derive(Clone, Copy, Debug)]
pub enum Start {
    /// With the first.
    First,
    /// With the first that comes after a place.
    After(Place),
    /// So that it ends with the last that comes before a place.
    Before(Place),
}

/// A page of what was found.
#[derive(Drop)]
pub struct FoundPage {
    /// At most `PAGE_ROWS`, in the order of the search.
    pub rows: Sequence<Found>,
    /// How many there are on all pages.
    pub count: u32,
    /// The place before which the page before it ends, if there is one.
    pub earlier: Option<Place>,
    /// The place after which the next page begins, if there is one.
    pub later: Option<Place>,
}

impl Start {
    /// The place after which is sought, if any; a page before a place is sought the other way round.
    pub fn place(self) -> Option<Place>
        ensures { result ≡ spec.place_of self }
    {
        match self {
            Start::First => None,
            Start::After(place) => Some(place),
            Start::Before(place) => Some(place),
        }
    }

    /// Whether it is sought the other way round.
    pub fn is_back(self) -> bool
        ensures { result ≡ spec.is_back self }
    {
        matches!(self, Start::Before(_))
    }
}

/// The page that begins there, of what was found for it: of one more row than it shows, sought the
/// other way round for a page before a place.
pub fn found_page(order: Order, start: Start, findings: Findings) -> FoundPage
    ensures { result ≡ spec.found_page order start findings }
{
    let mut rows = findings.rows.into_vec();
    let more = rows.len() > PAGE_ROWS as usize;
    rows.truncate(PAGE_ROWS as usize);
    if start.is_back() {
        rows.reverse();
    }
    let earlier = place_if(has_earlier(start, more), order, first_of(rows.as_slice()));
    let later = place_if(has_later(start, more), order, last_of(rows.as_slice()));
    FoundPage {
        rows: Sequence::from(rows),
        count: findings.count,
        earlier,
        later,
    }
}

/// Whether something comes before the page.
fn has_earlier(start: Start, more: bool) -> bool
    ensures { result ≡ spec.has_earlier start more }
{
    match start {
        Start::First => false,
        Start::After(_) => true,
        Start::Before(_) => more,
    }
}

/// Whether something comes after the page.
fn has_later(start: Start, more: bool) -> bool
    ensures { result ≡ spec.has_later start more }
{
    match start {
        Start::Before(_) => true,
        _ => more,
    }
}

/// The place of a row, where it is asked for.
fn place_if(asked: bool, order: Order, row: Option<&Found>) -> Option<Place>
    ensures { result ≡ spec.place_if asked order (option_map (λ r. r.now) row.entry) }
{
    match row {
        Some(row) if asked => Some(row.place(order)),
        _ => None,
    }
}

fn first_of(rows: &[Found]) -> Option<&Found>
    ensures { option_map (λ r. r.now) result ≡ spec.first_of rows.now }
{
    match rows {
        [row, ..] => Some(row),
        [] => None,
    }
}

fn last_of(rows: &[Found]) -> Option<&Found>
    ensures { option_map (λ r. r.now) result ≡ spec.last_of rows.now }
{
    match rows {
        [.., row] => Some(row),
        [] => None,
    }
}
