//! The page of a form of whose two commands the second was refused: it says what was done and what
//! wasn't.
ghost use Rattle.std.specs.Prelude.{◌≡◌, IfOk};
ghost use Rattle.page_core.specs.Page.{page_bytes};
ghost use Rattle.desk_pages.specs.RefusalPage as form;

use crate::frame::{Place, put_bottom, put_top};
use crate::markup::refused::REPLIED_NOTE;
use crate::refused::{heading_of, put_crumb, put_refusal_after, put_to_request};
use desk_model::Refusal;
use hours_core::Minute;
use page_core::{Value, fill};
use std::alloc::{AllocError, Global};

/// The page for a caller at a moment whose reply to the request of this number was sent, but who
/// chose a status that was refused: it says so.
pub fn replied_page(
    alloc: Global,
    refusal: &Refusal,
    caller: &str,
    moment: Minute,
    id: u32,
    status: &str,
) -> Result<Vec<u8>, AllocError>
    ensures { IfOk result (λ page. page.items
        ≡ page_bytes (form.replied_page refusal.now caller.now moment id status.now)) }
{
    let mut out = Vec::new(alloc);
    put_top(&mut out, heading_of(refusal), Place::Elsewhere, caller)?;
    put_crumb(&mut out, id)?;
    put_refusal_after(&mut out, refusal)?;
    fill(&mut out, REPLIED_NOTE, &[Value::Text(status)], &[])?;
    put_to_request(&mut out, id)?;
    put_bottom(&mut out, moment)?;
    Ok(out)
}
