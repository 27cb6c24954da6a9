//! The page for a new request.
ghost use Rattle.std.specs.Prelude.{◌≡◌, ◌++◌, [], IfOk, OnOk};
ghost use Rattle.page_core.specs.Page.{page_bytes};
ghost use Rattle.desk_pages.specs.Ask.{ask};
ghost use Rattle.desk_pages.specs.New as form;

use crate::ask::{Typed, put_ask};
use crate::frame::{Place, put_bottom, put_top};
use crate::markup::new::NEW_TOP;
use hours_core::Minute;
use page_core::{Value, fill};
use std::alloc::{AllocError, Global};
use text_core::Text;

/// The page for a new request in a queue, for a caller at a moment. Of the statuses to choose from
/// `usual` is chosen at first; where there are none, nothing is asked.
pub fn new_page(
    alloc: Global,
    queue: &str,
    caller: &str,
    moment: Minute,
    usual: &str,
    statuses: &[Text],
) -> Result<Vec<u8>, AllocError>
    ensures { IfOk result (λ page. page.items ≡ page_bytes
        (form.new_page queue.now caller.now moment usual.now statuses.now)) }
{
    let mut out = Vec::new(alloc);
    put_top(&mut out, TITLE, Place::Elsewhere, caller)?;
    put_new_top(&mut out, queue)?;
    put_form(&mut out, queue, caller, usual, statuses)?;
    put_bottom(&mut out, moment)?;
    Ok(out)
}

/// What the page is called.
const TITLE: &str = "New request";

/// Puts the form with nothing typed.
fn put_form(
    out: &mut Vec<u8>,
    queue: &str,
    caller: &str,
    usual: &str,
    statuses: &[Text],
) -> Result<(), AllocError>
    ensures { OnOk result (out.new.items ≡ out.old.items ++ page_bytes
        (ask queue.now caller.now [] [] [] usual.now statuses.now)) }
{
    let nothing = Typed {
        subject: "",
        text: "",
        requestors: "",
    };
    put_ask(out, queue, caller, nothing, usual, statuses)
}

#[tactic(auto, unfolding(crate::specs::New::new_top))]
fn put_new_top(out: &mut Vec<u8>, queue: &str) -> Result<(), AllocError>
    ensures { OnOk result (out.new.items ≡ out.old.items ++ page_bytes (form.new_top queue.now)) }
{
    fill(
        out,
        NEW_TOP,
        &[Value::Text(queue), Value::Text(queue), Value::Text(queue)],
        &[],
    )
}
