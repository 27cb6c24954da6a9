//! The page on which one signs in.
ghost use Rattle.std.specs.Prelude.{◌≡◌, ◌++◌, IfOk, OnOk};
ghost use Rattle.page_core.specs.Page.{page_bytes};
ghost use Rattle.desk_pages.specs.SignIn as form;

use crate::ask::Typed;
use crate::frame::{put_bare_bottom, put_bare_top};
use crate::markup::sign_in::{KEPT, SIGN_IN, SIGN_IN_END};
use page_core::{Value, fill};
use std::alloc::{AllocError, Global};

/// The page on which one signs in, which leads to the place `next`. `refused` says that the token
/// wasn't known, and `elsewhere` that the page stands at the place that was asked for.
pub fn sign_in_page(
    alloc: Global,
    next: &str,
    refused: bool,
    elsewhere: bool,
) -> Result<Vec<u8>, AllocError>
    ensures { IfOk result (λ page. page.items
        ≡ page_bytes (form.sign_in_page next.now refused elsewhere)) }
{
    let mut out = Vec::new(alloc);
    put_bare_top(&mut out, "Sign in")?;
    fill(&mut out, SIGN_IN, &[Value::Text(next)], &[refused, false])?;
    fill(&mut out, SIGN_IN_END, &[], &[elsewhere])?;
    put_bare_bottom(&mut out)?;
    Ok(out)
}

/// The page on which one signs in after a form that wasn't sent, which leads to that form at `next`
/// with what was typed into it, the status that was chosen, and the number of the last entry that was
/// seen. `refused` says that the token wasn't known.
pub fn kept_page(
    alloc: Global,
    next: &str,
    typed: Typed<'_>,
    seen: u32,
    status: &str,
    refused: bool,
) -> Result<Vec<u8>, AllocError>
    ensures { IfOk result (λ page. page.items ≡ page_bytes (form.kept_page next.now
        typed.entry.subject.now typed.entry.requestors.now seen typed.entry.text.now status.now
        refused)) }
{
    let mut out = Vec::new(alloc);
    put_bare_top(&mut out, "Sign in")?;
    fill(&mut out, SIGN_IN, &[Value::Text(next)], &[refused, true])?;
    put_kept(&mut out, typed, seen, status)?;
    fill(&mut out, SIGN_IN_END, &[], &[false])?;
    put_bare_bottom(&mut out)?;
    Ok(out)
}

/// Puts what comes along.
fn put_kept<'t>(
    out: &mut Vec<u8>,
    typed: Typed<'t>,
    seen: u32,
    status: &'t str,
) -> Result<(), AllocError>
    ensures { OnOk result (out.new.items ≡ out.old.items ++ page_bytes (form.kept
        typed.entry.subject.now typed.entry.requestors.now seen typed.entry.text.now status.now)) }
{
    let values = [
        Value::Text(typed.subject),
        Value::Text(typed.requestors),
        Value::Number(seen),
        Value::Text(typed.text),
        Value::Text(status),
    ];
    fill(out, KEPT, &values, &[])
}
