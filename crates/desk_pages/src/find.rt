//! The page of a search: what is sought, and what was found.
ghost use Rattle.std.specs.Prelude.{◌≡◌, ◌++◌, IfOk, OnOk};
ghost use Rattle.page_core.specs.Page.{page_bytes};
ghost use Rattle.desk_pages.specs.Find as form;

use crate::chips::put_chips;
use crate::frame::{Place, put_bottom, put_top};
use crate::markup::find::{FIND_FAULT, FIND_TOP};
use crate::paging::{is_first, put_paging, put_paging_again};
use crate::pills::put_pills;
use crate::rows::put_table;
use crate::search::put_search_form;
use crate::sought::{heading_of, is_set, place_of, title_of};
use find_form::{FindForm, FoundPage, Start};
use hours_core::Minute;
use page_core::{Value, fill};
use std::alloc::{AllocError, Global};

/// The page of a search, for a caller at a moment: what is sought by these fields of an address, which
/// say what was typed, choices that narrow it, the form with what was typed, and what was found, from
/// there on.
pub fn find_page(
    alloc: Global,
    caller: &str,
    moment: Minute,
    query: &str,
    start: Start,
    typed: &FindForm,
    page: &FoundPage,
) -> Result<Vec<u8>, AllocError>
    ensures { IfOk result (λ out. out.items ≡ page_bytes
        (form.find_page caller.now moment query.now start typed.now page.now)) }
{
    let mut out = Vec::new(alloc);
    put_find_top(alloc, &mut out, caller, typed)?;
    put_chips(alloc, &mut out, query, typed)?;
    put_pills(alloc, &mut out, query, typed)?;
    put_search_form(&mut out, is_unfolded(start, typed, page), typed)?;
    put_found(alloc, &mut out, caller, moment, query, start, page)?;
    put_bottom(&mut out, moment)?;
    Ok(out)
}

/// What the table of the page is called.
const CAPTION: &str = "The requests that you may see";

/// The page of a search that isn't one, for a caller at a moment: the sentence that says why, and
/// the form with what was typed.
pub fn find_fault_page(
    alloc: Global,
    caller: &str,
    moment: Minute,
    sentence: &str,
    typed: &FindForm,
) -> Result<Vec<u8>, AllocError>
    ensures { IfOk result (λ out. out.items ≡ page_bytes
        (form.find_fault_page caller.now moment sentence.now typed.now)) }
{
    let mut out = Vec::new(alloc);
    put_top(&mut out, "Find", Place::Find, caller)?;
    fill(&mut out, FIND_FAULT, &[Value::Text(sentence)], &[])?;
    put_search_form(&mut out, true, typed)?;
    put_bottom(&mut out, moment)?;
    Ok(out)
}

/// Puts what stands above the content, with what is sought in the title, and the heading.
#[tactic(auto, unfolding(crate::specs::Find::find_top))]
fn put_find_top(
    alloc: Global,
    out: &mut Vec<u8>,
    caller: &str,
    typed: &FindForm,
) -> Result<(), AllocError>
    ensures { OnOk result (out.new.items
        ≡ out.old.items ++ page_bytes (form.find_top caller.now typed.now)) }
{
    let title = title_of(alloc, typed)?;
    put_top(out, title.as_str(), place_of(typed), caller)?;
    put_heading(out, typed)
}

#[tactic(auto, unfolding(crate::specs::Find::heading))]
fn put_heading(out: &mut Vec<u8>, typed: &FindForm) -> Result<(), AllocError>
    ensures { OnOk result (out.new.items
        ≡ out.old.items ++ page_bytes (form.heading typed.now)) }
{
    let of_queue = !typed.queue.as_str().is_empty();
    let values = [
        Value::Text(heading_of(typed)),
        Value::Text(typed.queue.as_str()),
    ];
    fill(out, FIND_TOP, &values, &[of_queue, of_queue])
}

/// Whether the form is unfolded: where nothing is sought yet, and where nothing was found.
fn is_unfolded(start: Start, typed: &FindForm, page: &FoundPage) -> bool
    ensures { result ≡ form.is_unfolded start typed.now page.now }
{
    page.count == 0 || (is_first(start) && !is_set(typed))
}

/// Puts what was found, and which of it the page shows above it, and below it too where there are
/// other pages.
#[tactic(auto, unfolding(crate::specs::Find::found))]
fn put_found(
    alloc: Global,
    out: &mut Vec<u8>,
    caller: &str,
    moment: Minute,
    query: &str,
    start: Start,
    page: &FoundPage,
) -> Result<(), AllocError>
    ensures { OnOk result (out.new.items ≡ out.old.items
        ++ page_bytes (form.found caller.now moment query.now start page.now)) }
{
    put_paging(alloc, out, query, start, page)?;
    put_table(out, CAPTION, caller, moment, page.rows.as_slice())?;
    put_paging_again(alloc, out, query, start, page)
}
