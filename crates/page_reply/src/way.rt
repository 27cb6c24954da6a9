//! The reply that leads to a place, put into room that was had before.
ghost use Rattle.std.specs.Prelude.{◌≡◌, ◌++◌, ◌+◌, ◌≤◌, ◌<◌, length, None, OnErr, OnOk, Some};
ghost use Rattle.std.specs.Vec.{vec_capacity, vec_len};
ghost use Rattle.page_reply.specs.PageReply as form;

use crate::reply::{CookieChange, add_three, allow_line, end_page_head, start_page_head};
use message_core::add_text;
use std::alloc::AllocError;

/// Puts the reply that leads to a place at the end; the place is told in three parts. There is room for
/// it, so no memory is taken.
pub fn put_way(out: &mut Vec<u8>, front: &str, middle: &str, back: &str)
    requires short { length front.now + length middle.now + length back.now ≤ 100 }
    requires room { vec_len out.old + 512 ≤ vec_capacity out.old }
    ensures { out.new.items
        ≡ out.old.items ++ form.way_to (front.now ++ (middle.now ++ back.now)) }
{
    add_way(out, front, middle, back).unwrap();
}

/// The same, where there is room or memory for it.
fn add_way(out: &mut Vec<u8>, front: &str, middle: &str, back: &str) -> Result<(), AllocError>
    ensures added { OnOk result (out.new.items
        ≡ out.old.items ++ form.way_to (front.now ++ (middle.now ++ back.now))) }
    ensures full { OnErr result (vec_capacity out.old
        < vec_len out.old + length (form.way_to (front.now ++ (middle.now ++ back.now)))) }
{
    start_page_head(out, 303, 0)?;
    add_way_lines(out, front, middle, back)?;
    end_page_head(out)
}

/// Puts the lines of the way to a place at the end.
#[tactic(auto, unfolding(crate::specs::PageReply::own_lines))]
fn add_way_lines(out: &mut Vec<u8>, front: &str, middle: &str, back: &str) -> Result<(), AllocError>
    ensures added { OnOk result (out.new.items ≡ out.old.items
        ++ form.own_lines CookieChange.Keep (Some (front.now ++ (middle.now ++ back.now))) None) }
    ensures full { OnErr result (vec_capacity out.old < vec_len out.old
        + length (form.own_lines CookieChange.Keep (Some (front.now ++ (middle.now ++ back.now)))
        None)) }
    ensures capacity { vec_capacity out.old ≤ vec_capacity out.new }
{
    add_place_line(out, front, middle, back)?;
    add_text(out, allow_line(None))
}

/// Puts the line of a place at the end.
#[tactic(auto, unfolding(crate::specs::PageReply::leads_line))]
fn add_place_line(
    out: &mut Vec<u8>,
    front: &str,
    middle: &str,
    back: &str,
) -> Result<(), AllocError>
    ensures added { OnOk result (out.new.items
        ≡ out.old.items ++ form.leads_line (front.now ++ (middle.now ++ back.now))) }
    ensures full { OnErr result (vec_capacity out.old
        < vec_len out.old + length (form.leads_line (front.now ++ (middle.now ++ back.now)))) }
    ensures capacity { vec_capacity out.old ≤ vec_capacity out.new }
{
    add_text(out, "Location: ")?;
    add_three(out, front, middle, back)?;
    add_text(out, "\r\n")
}
