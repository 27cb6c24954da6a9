//! How many were found, which of them the page shows, and the ways to other pages of them.
ghost use Rattle.std.specs.Prelude.{◌≡◌, ◌++◌, IfOk, OnOk};
ghost use Rattle.std.specs.Option.{option_map};
ghost use Rattle.find_form.specs.Address.{place_text as address};
ghost use Rattle.page_core.specs.Page.{page_bytes};
ghost use Rattle.desk_pages.specs.Paging as form;

use crate::markup::paging::PAGING;
use crate::pieces::name_or;
use find_form::{FoundPage, Start, place_text};
use page_core::{Value, fill};
use std::alloc::{AllocError, Global};
use text_core::Text;

/// Puts how many there are, which of them the page shows, and the ways to other pages of them.
pub(crate) fn put_paging(
    alloc: Global,
    out: &mut Vec<u8>,
    query: &str,
    start: Start,
    page: &FoundPage,
) -> Result<(), AllocError>
    ensures { OnOk result (out.new.items
        ≡ out.old.items ++ page_bytes (form.paging query.now start page.now)) }
{
    let earlier = address_of(alloc, page.earlier)?;
    let later = address_of(alloc, page.later)?;
    put_ways(
        out,
        query,
        name_or(&earlier, ""),
        name_or(&later, ""),
        start,
        page,
    )
}

/// The same where there are other pages.
pub(crate) fn put_paging_again(
    alloc: Global,
    out: &mut Vec<u8>,
    query: &str,
    start: Start,
    page: &FoundPage,
) -> Result<(), AllocError>
    ensures { OnOk result (out.new.items
        ≡ out.old.items ++ page_bytes (form.paging_again query.now start page.now)) }
{
    if is_whole(start, page) {
        Ok(())
    } else {
        put_paging(alloc, out, query, start, page)
    }
}

#[tactic(auto, unfolding(crate::specs::Paging::ways))]
fn put_ways<'t>(
    out: &mut Vec<u8>,
    query: &'t str,
    earlier: &'t str,
    later: &'t str,
    start: Start,
    page: &FoundPage,
) -> Result<(), AllocError>
    ensures { OnOk result (out.new.items ≡ out.old.items
        ++ page_bytes (form.ways query.now earlier.now later.now start page.now)) }
{
    let values = [
        Value::Number(page.count),
        Value::Sum(first_of(page)),
        Value::Sum(last_of(page)),
        Value::Number(page.count),
        Value::Sum(page.rows.as_slice().len() as u128),
        Value::Number(page.count),
        Value::Text(query),
        Value::Text(earlier),
        Value::Text(query),
        Value::Text(later),
        Value::Text(query),
    ];
    fill(out, PAGING, &values, &shown_in(start, page))
}

/// What is told: that it is one, all, which ones or how many; and which ways there are.
fn shown_in(start: Start, page: &FoundPage) -> [bool; 7]
    ensures { result ≡ form.paging_told start page.now }
{
    let whole = is_whole(start, page);
    let one = page.count == 1;
    let known = begins(page) || ends(page);
    [
        whole && one,
        whole && !one,
        !whole && known,
        !whole && !known,
        !is_first(start),
        page.earlier.is_some(),
        page.later.is_some(),
    ]
}

/// Whether there are no other pages.
fn is_whole(start: Start, page: &FoundPage) -> bool
    ensures { result ≡ form.is_whole start page.now }
{
    is_first(start) && page.later.is_none()
}

/// Whether the page begins with the first of all.
fn begins(page: &FoundPage) -> bool
    ensures { result ≡ form.begins page.now }
{
    page.earlier.is_none() && !page.rows.as_slice().is_empty()
}

/// Whether the page ends with the last of all.
fn ends(page: &FoundPage) -> bool
    ensures { result ≡ form.ends page.now }
{
    page.later.is_none() && !page.rows.as_slice().is_empty()
}

/// Which of all the first of the page is, where the page begins with the first or ends with the last.
fn first_of(page: &FoundPage) -> u128
    ensures { result ≡ form.first_of page.now }
{
    if begins(page) {
        1
    } else {
        let before_last = page.rows.as_slice().len().saturating_sub(1);
        (page.count as usize).saturating_sub(before_last) as u128
    }
}

/// Which of all the last of the page is.
fn last_of(page: &FoundPage) -> u128
    ensures { result ≡ form.last_of page.now }
{
    if begins(page) {
        page.rows.as_slice().len() as u128
    } else {
        u128::from(page.count)
    }
}

pub(crate) fn is_first(start: Start) -> bool
    ensures { result ≡ form.is_first start }
{
    matches!(start, Start::First)
}

/// From where on another page is, in an address, if there is one.
fn address_of(alloc: Global, place: Option<find_core::Place>) -> Result<Option<Text>, AllocError>
    ensures { IfOk result (λ text. text ≡ option_map address place) }
{
    match place {
        Some(place) => Ok(Some(place_text(alloc, place)?)),
        None => Ok(None),
    }
}
