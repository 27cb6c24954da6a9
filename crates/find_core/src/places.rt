//! The order of rows, and their pages.
ghost use Rattle.std.specs.Prelude.{◌≡◌, IfOk, filter};
ghost use Rattle.std.specs.Ordering.{is_lt};
ghost use Rattle.find_core.specs.Places as places;
ghost use Rattle.find_core.specs.Ordered.{AreApart};

use crate::search::{Place, Search};
use hours_core::Minute;
use std::alloc::AllocError;

/// Where a row stands, and when it is due.
pub type Placed = (Place, Option<Minute>);

/// The rows of a page of a search: those that come after the place, or all, in the order of the
/// search, at most so many. No two have the same number. A limit of none counts as 1, and one above
/// 500 as 500. `AllocError` where memory is refused.
pub fn page(
    search: &Search,
    limit: u32,
    after: Option<Place>,
    rows: Vec<Placed>,
) -> Result<Vec<Placed>, AllocError>
    ensures { AreApart rows.items → IfOk result (λ page. page.items
        ≡ places.page search.now.descending limit after (λ p. p.0) rows.items) }
{
    let rows = ordered(search.descending, rows)?;
    let mut rows = rows_after(search.descending, after, rows);
    rows.truncate(limit_of(limit));
    Ok(rows)
}

/// How many rows stand on a page at most: from 1 to 500.
fn limit_of(limit: u32) -> usize
    ensures { result ≡ places.limit_of limit }
{
    if limit == 0 {
        1
    } else if limit <= 500 {
        limit as usize
    } else {
        500
    }
}

/// The rows in their order, or in its reverse.
fn ordered(descending: bool, rows: Vec<Placed>) -> Result<Vec<Placed>, AllocError>
    ensures { AreApart rows.items → IfOk result (λ ordered. ordered.items
        ≡ places.in_direction descending (λ p. p.0) rows.items) }
{
    let mut rows = ascending(rows)?;
    if descending {
        rows.reverse();
    }
    Ok(rows)
}

/// The rows in their order.
fn ascending(mut rows: Vec<Placed>) -> Result<Vec<Placed>, AllocError>
    ensures { AreApart rows.items → IfOk result (λ ordered. ordered.items
        ≡ places.in_order (λ p. p.0) rows.items) }
{
    rows.sort_by_key(|row| (row.0.key, row.0.id))?;
    Ok(rows)
}

/// Those of the rows that come after the place, or all.
fn rows_after(descending: bool, after: Option<Place>, rows: Vec<Placed>) -> Vec<Placed>
    ensures { result.items ≡ filter (places.is_after descending after (λ p. p.0)) rows.items }
{
    match after {
        Some(place) => rows_behind(descending, place, rows),
        None => rows,
    }
}

fn rows_behind(descending: bool, place: Place, mut rows: Vec<Placed>) -> Vec<Placed>
    ensures { result.items ≡ filter (λ p. places.is_before descending place p.0) rows.items }
{
    rows.retain(|row| is_before(descending, place, row.0));
    rows
}

/// Whether the one place comes before the other, in the order or the other way round.
fn is_before(descending: bool, one: Place, other: Place) -> bool
    ensures { result ≡ places.is_before descending one other }
{
    if descending {
        is_lower(other, one)
    } else {
        is_lower(one, other)
    }
}

/// Whether the one place is lower than the other.
fn is_lower(one: Place, other: Place) -> bool
    ensures { result ≡ is_lt (places.place_order one other) }
{
    one.key < other.key || (one.key == other.key && one.id < other.id)
}
