//! The page of a fault.
ghost use Rattle.std.specs.Prelude.{◌≡◌, ◌++◌, IfOk, OnOk};
ghost use Rattle.page_core.specs.Page.{page_bytes};
ghost use Rattle.desk_pages.specs.Fault as form;

use crate::frame::{put_bare_bottom, put_bare_top};
use crate::markup::fault::FAULT;
use page_core::{Value, fill};
use std::alloc::{AllocError, Global};

/// The page of a fault: what is wrong, by a heading and a sentence, and its code. It is the same
/// whoever asks.
pub fn fault_page(
    alloc: Global,
    heading: &str,
    sentence: &str,
    code: &str,
) -> Result<Vec<u8>, AllocError>
    ensures { IfOk result (λ page. page.items
        ≡ page_bytes (form.fault_page heading.now sentence.now code.now)) }
{
    let mut out = Vec::new(alloc);
    put_bare_top(&mut out, heading)?;
    put_fault(&mut out, heading, sentence, code)?;
    put_bare_bottom(&mut out)?;
    Ok(out)
}

#[tactic(auto, unfolding(crate::specs::Fault::fault))]
fn put_fault<'t>(
    out: &mut Vec<u8>,
    heading: &'t str,
    sentence: &'t str,
    code: &'t str,
) -> Result<(), AllocError>
    ensures { OnOk result (out.new.items
        ≡ out.old.items ++ page_bytes (form.fault heading.now sentence.now code.now)) }
{
    fill(
        out,
        FAULT,
        &[
            Value::Text(heading),
            Value::Text(sentence),
            Value::Text(code),
        ],
        &[],
    )
}
