//! The bytes of the reply with the style sheet.
ghost use Rattle.std.specs.Prelude.{◌≡◌, ◌++◌, length, IfOk};
ghost use Rattle.page_reply.specs.PageReply as form;

use message_core::{add_text, end_head, start_head};
use std::alloc::{AllocError, Global};

/// The bytes of the reply with a style sheet, which a browser may keep for a year: its address is
/// another one whenever the sheet is.
pub fn sheet_reply(alloc: Global, sheet: &[u8]) -> Result<Vec<u8>, AllocError>
    ensures { IfOk result (λ out. out.items ≡ form.sheet_bytes sheet.now) }
{
    let mut out = Vec::new(alloc);
    start_head(&mut out, 200, sheet_kind(), sheet.len() as u64)?;
    add_text(&mut out, keep_lines())?;
    end_head(&mut out)?;
    out.extend_from_slice(sheet)?;
    Ok(out)
}

#[tactic(auto, unfolding(crate::specs::PageReply::sheet_kind))]
fn sheet_kind() -> &'static str
    ensures { result.now ≡ form.sheet_kind }
{
    "text/css; charset=utf-8"
}

#[tactic(auto, unfolding(crate::specs::PageReply::keep_lines))]
fn keep_lines() -> &'static str
    ensures { result.now ≡ form.keep_lines }
{
    "Cache-Control: public, max-age=31536000, immutable\r\n\
     X-Content-Type-Options: nosniff\r\n"
}
