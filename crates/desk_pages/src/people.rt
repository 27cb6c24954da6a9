//! The names that are suggested where a person is asked: those that the page shows anyway.
ghost use Rattle.std.specs.Prelude.{◌≡◌, ◌++◌, OnOk};
ghost use Rattle.std.specs.List.{flat_map};
ghost use Rattle.page_core.specs.Page.{page_bytes};
ghost use Rattle.desk_pages.specs.People as form;

use crate::markup::people::{PEOPLE_END, PEOPLE_TOP, PERSON};
use crate::pieces::name_or;
use crate::rows::is_of;
use desk_model::Shown;
use page_core::{Value, fill};
use std::alloc::AllocError;
use text_core::Text;

/// Puts the names of whoever has a role on a request, of its owner and of the caller, each once.
pub(crate) fn put_people(out: &mut Vec<u8>, caller: &str, shown: &Shown) -> Result<(), AllocError>
    ensures { OnOk result (out.new.items
        ≡ out.old.items ++ page_bytes (form.people caller.now shown.now)) }
{
    fill(out, PEOPLE_TOP, &[], &[])?;
    put_persons(out, shown.requestors.as_slice())?;
    put_persons(out, shown.cc.as_slice())?;
    put_persons(out, shown.admin_cc.as_slice())?;
    put_people_end(out, caller, shown)
}

pub(crate) fn put_persons(out: &mut Vec<u8>, names: &[Text]) -> Result<(), AllocError>
    ensures { OnOk result (out.new.items
        ≡ out.old.items ++ page_bytes (flat_map form.person names.now)) }
{
    for name in names {
        put_person(out, name.as_str())?;
    }
    Ok(())
}

#[tactic(auto, unfolding(crate::specs::People::person))]
fn put_person(out: &mut Vec<u8>, name: &str) -> Result<(), AllocError>
    ensures { OnOk result (out.new.items ≡ out.old.items ++ page_bytes (form.person name.now)) }
{
    fill(out, PERSON, &[Value::Text(name)], &[])
}

#[tactic(auto, unfolding(crate::specs::People::people_end))]
fn put_people_end<'t>(
    out: &mut Vec<u8>,
    caller: &'t str,
    shown: &'t Shown,
) -> Result<(), AllocError>
    ensures { OnOk result (out.new.items
        ≡ out.old.items ++ page_bytes (form.people_end caller.now shown.now)) }
{
    let owner = name_or(&shown.row.owner, "");
    fill(
        out,
        PEOPLE_END,
        &[Value::Text(owner), Value::Text(caller)],
        &[is_owner_told(shown), is_stranger(caller, shown)],
    )
}

/// Whether there is an owner who has no role.
fn is_owner_told(shown: &Shown) -> bool
    ensures { result ≡ form.is_owner_told shown.now shown.now.row.owner }
{
    match &shown.row.owner {
        Some(owner) => !watches(shown, owner.as_str()),
        None => false,
    }
}

/// Whether the caller has no role and doesn't own it either.
fn is_stranger(caller: &str, shown: &Shown) -> bool
    ensures { result ≡ form.is_stranger caller.now shown.now }
{
    !(watches(shown, caller) || is_of(caller, &shown.row.owner))
}

/// Whether the person has a role on it.
fn watches(shown: &Shown, name: &str) -> bool
    ensures { result ≡ form.watches shown.now name.now }
{
    shown.requestors.contains(name) || shown.cc.contains(name) || shown.admin_cc.contains(name)
}
