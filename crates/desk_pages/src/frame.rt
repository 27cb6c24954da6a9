//! What stands above and below the content of each page.
ghost use Rattle.std.specs.Prelude.{◌≡◌, ◌++◌, OnOk};
ghost use Rattle.page_core.specs.Page.{page_bytes};
ghost use Rattle.desk_pages.specs.Frame as form;

use crate::markup::frame::{BARE_BOTTOM, BARE_TOP, BOTTOM, TOP};
use hours_core::Minute;
use page_core::{Value, fill};
use std::alloc::AllocError;

/// Which of the pages that each page leads to it is.
#[derive(Clone, Copy)]
pub enum Place {
    Home,
    Find,
    Late,
    Workload,
    /// None of them.
    Elsewhere,
}

/// Puts what stands above the content.
#[tactic(auto, unfolding(crate::specs::Frame::top))]
pub(crate) fn put_top<'t>(
    out: &mut Vec<u8>,
    title: &'t str,
    at: Place,
    caller: &'t str,
) -> Result<(), AllocError>
    ensures { OnOk result (out.new.items
        ≡ out.old.items ++ page_bytes (form.top title.now at caller.now)) }
{
    fill(
        out,
        TOP,
        &[Value::Text(title), Value::Text(caller)],
        &[is_home(at), is_find(at), is_late(at), is_workload(at)],
    )
}

/// Puts what stands below the content of a page that is made at this moment.
#[tactic(auto, unfolding(crate::specs::Frame::bottom))]
pub(crate) fn put_bottom(out: &mut Vec<u8>, moment: Minute) -> Result<(), AllocError>
    ensures { OnOk result (out.new.items
        ≡ out.old.items ++ page_bytes (form.bottom moment)) }
{
    fill(
        out,
        BOTTOM,
        &[
            Value::Day(moment),
            Value::Clock(moment),
            Value::Day(moment),
            Value::Clock(moment),
        ],
        &[],
    )
}

fn is_home(at: Place) -> bool
    ensures { result ≡ form.is_home at }
{
    matches!(at, Place::Home)
}

fn is_find(at: Place) -> bool
    ensures { result ≡ form.is_find at }
{
    matches!(at, Place::Find)
}

fn is_late(at: Place) -> bool
    ensures { result ≡ form.is_late at }
{
    matches!(at, Place::Late)
}

fn is_workload(at: Place) -> bool
    ensures { result ≡ form.is_workload at }
{
    matches!(at, Place::Workload)
}

/// Puts what stands above the content where the caller isn't known.
#[tactic(auto, unfolding(crate::specs::Frame::bare_top))]
pub(crate) fn put_bare_top(out: &mut Vec<u8>, title: &str) -> Result<(), AllocError>
    ensures { OnOk result (out.new.items ≡ out.old.items ++ page_bytes (form.bare_top title.now)) }
{
    fill(out, BARE_TOP, &[Value::Text(title)], &[])
}

/// Puts what stands below it there.
#[tactic(auto, unfolding(crate::specs::Frame::bare_bottom))]
pub(crate) fn put_bare_bottom(out: &mut Vec<u8>) -> Result<(), AllocError>
    ensures { OnOk result (out.new.items ≡ out.old.items ++ page_bytes form.bare_bottom) }
{
    fill(out, BARE_BOTTOM, &[], &[])
}
