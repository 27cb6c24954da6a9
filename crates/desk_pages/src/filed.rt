//! The page of a new request that its filer may not see.
ghost use Rattle.std.specs.Prelude.{◌≡◌, ◌++◌, IfOk, OnOk};
ghost use Rattle.page_core.specs.Page.{page_bytes};
ghost use Rattle.desk_pages.specs.Filed as form;

use crate::frame::{Place, put_bottom, put_top};
use crate::markup::filed::FILED;
use hours_core::Minute;
use page_core::{Value, fill};
use std::alloc::{AllocError, Global};

/// The page for a caller at a moment who has filed the request with this number, and may not see it.
pub fn filed_page(
    alloc: Global,
    caller: &str,
    moment: Minute,
    id: u32,
) -> Result<Vec<u8>, AllocError>
    ensures { IfOk result (λ page. page.items
        ≡ page_bytes (form.filed_page caller.now moment id)) }
{
    let mut out = Vec::new(alloc);
    put_top(&mut out, "Filed", Place::Elsewhere, caller)?;
    put_filed(&mut out, id)?;
    put_bottom(&mut out, moment)?;
    Ok(out)
}

#[tactic(auto, unfolding(crate::specs::Filed::filed))]
fn put_filed(out: &mut Vec<u8>, id: u32) -> Result<(), AllocError>
    ensures { OnOk result (out.new.items ≡ out.old.items ++ page_bytes (form.filed id)) }
{
    fill(out, FILED, &[Value::Number(id)], &[])
}
