//! The forms for a reply and for a comment.
ghost use Rattle.std.specs.Prelude.{◌≡◌, ◌++◌, OnOk};
ghost use Rattle.std.specs.Option.{option_map};
ghost use Rattle.page_core.specs.Page.{page_bytes};
ghost use Rattle.desk_pages.specs.Write as form;

use crate::markup::write::{COMMENT, MOVE_TOO, REPLY, REPLY_END};
use page_core::{Value, fill};
use std::alloc::AllocError;

/// Puts the form for a reply of a caller to the request of this number, of whose history the caller has
/// seen the entries up to the one numbered `seen`, with a text. Where there is a status, the request can
/// be moved to it as well, which may be ticked.
#[tactic(auto, unfolding(crate::specs::Write::reply))]
pub(crate) fn put_reply<'t>(
    out: &mut Vec<u8>,
    id: u32,
    caller: &'t str,
    seen: u32,
    text: &'t str,
    status: Option<&str>,
    ticked: bool,
) -> Result<(), AllocError>
    ensures { OnOk result (out.new.items ≡ out.old.items ++ page_bytes
        (form.reply id caller.now seen text.now (option_map (λ s. s.now) status.entry) ticked)) }
{
    let values = [
        Value::Number(id),
        Value::Text(caller),
        Value::Number(seen),
        Value::Text(text),
    ];
    fill(out, REPLY, &values, &[])?;
    put_move_too(out, status, ticked)?;
    fill(out, REPLY_END, &[], &[])
}

#[tactic(auto, unfolding(crate::specs::Write::move_too))]
fn put_move_too(out: &mut Vec<u8>, status: Option<&str>, ticked: bool) -> Result<(), AllocError>
    ensures { OnOk result (out.new.items ≡ out.old.items ++ page_bytes
        (form.move_too (option_map (λ s. s.now) status.entry) ticked)) }
{
    match status {
        Some(status) => fill(
            out,
            MOVE_TOO,
            &[Value::Text(status), Value::Text(status)],
            &[ticked],
        ),
        None => Ok(()),
    }
}

/// Puts the form for a comment of a caller on the request of this number, with a text.
#[tactic(auto, unfolding(crate::specs::Write::comment))]
pub(crate) fn put_comment<'t>(
    out: &mut Vec<u8>,
    id: u32,
    caller: &'t str,
    text: &'t str,
) -> Result<(), AllocError>
    ensures { OnOk result (out.new.items
        ≡ out.old.items ++ page_bytes (form.comment id caller.now text.now)) }
{
    let values = [Value::Number(id), Value::Text(caller), Value::Text(text)];
    fill(out, COMMENT, &values, &[])
}
