//! The forms by which a request gets another owner.
ghost use Rattle.std.specs.Prelude.{◌≡◌, ◌++◌, OnOk};
ghost use Rattle.page_core.specs.Page.{page_bytes};
ghost use Rattle.desk_pages.specs.Owner as form;

use crate::markup::owner::{GIVE, STEAL, TAKE, UNTAKE};
use page_core::{Value, fill};
use std::alloc::AllocError;
use text_core::Text;

/// Puts the form that makes sense for the caller: to take a request that nobody owns, to let go of
/// one's own, or to steal another person's.
#[tactic(auto, unfolding(crate::specs::Owner::owner_form))]
pub(crate) fn put_owner_form<'t>(
    out: &mut Vec<u8>,
    id: u32,
    caller: &'t str,
    owner: &'t Option<Text>,
) -> Result<(), AllocError>
    ensures { OnOk result (out.new.items
        ≡ out.old.items ++ page_bytes (form.owner_form id caller.now owner.now)) }
{
    match owner {
        None => fill(out, TAKE, &[Value::Number(id), Value::Text(caller)], &[]),
        Some(owner) => {
            if owner.as_str() == caller {
                fill(out, UNTAKE, &[Value::Number(id), Value::Text(caller)], &[])
            } else {
                let values = [
                    Value::Number(id),
                    Value::Text(caller),
                    Value::Text(owner.as_str()),
                ];
                fill(out, STEAL, &values, &[])
            }
        }
    }
}

/// Puts the form by which anybody is given it.
#[tactic(auto, unfolding(crate::specs::Owner::give_form))]
pub(crate) fn put_give_form(out: &mut Vec<u8>, id: u32, caller: &str) -> Result<(), AllocError>
    ensures { OnOk result (out.new.items
        ≡ out.old.items ++ page_bytes (form.give_form id caller.now)) }
{
    fill(out, GIVE, &[Value::Number(id), Value::Text(caller)], &[])
}
