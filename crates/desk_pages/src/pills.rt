//! The choices that narrow a list.
ghost use Rattle.std.specs.Prelude.{◌≡◌, ◌++◌, OnOk};
ghost use Rattle.find_form.specs.SearchFields.{is_ticked};
ghost use Rattle.page_core.specs.Page.{page_bytes};
ghost use Rattle.desk_pages.specs.Pills as form;

use crate::markup::pills::PILLS;
use find_form::{FindForm, others_of};
use page_core::{Value, fill};
use std::alloc::{AllocError, Global};

/// Puts the choices for what is sought by these fields of an address.
pub(crate) fn put_pills(
    alloc: Global,
    out: &mut Vec<u8>,
    query: &str,
    typed: &FindForm,
) -> Result<(), AllocError>
    ensures { OnOk result (out.new.items
        ≡ out.old.items ++ page_bytes (form.pills query.now typed.now)) }
{
    let state = others_of(alloc, query, &["state", "status", "late"])?;
    let late = others_of(alloc, query, &["late", unlike_late(typed.state.as_str())])?;
    let owner = others_of(alloc, query, &["owner"])?;
    put_choices(
        out,
        state.as_str(),
        late.as_str(),
        owner.as_str(),
        &chosen_of(typed),
    )
}

#[tactic(auto, unfolding(crate::specs::Pills::choices))]
fn put_choices<'t>(
    out: &mut Vec<u8>,
    state: &'t str,
    late: &'t str,
    owner: &'t str,
    chosen: &[bool],
) -> Result<(), AllocError>
    ensures { OnOk result (out.new.items ≡ out.old.items
        ++ page_bytes (form.choices state.entry.now late.entry.now owner.entry.now chosen.now)) }
{
    let values = [
        Value::Text(state),
        Value::Text(late),
        Value::Text(state),
        Value::Text(state),
        Value::Text(owner),
        Value::Text(owner),
        Value::Text(owner),
    ];
    fill(out, PILLS, &values, chosen)
}

/// The field that goes where what is late is chosen: nothing that is closed is late.
fn unlike_late(state: &str) -> &'static str
    ensures { result.now ≡ form.unlike_late state.now }
{
    if state == "closed" { "state" } else { "" }
}

/// Which of the choices are the present ones.
fn chosen_of(typed: &FindForm) -> [bool; 7]
    ensures { result ≡ form.chosen_of typed.now }
{
    let state = typed.state.as_str();
    let owner = typed.owner.as_str();
    let late = is_ticked(typed.late.as_str());
    let of_state = !late && typed.status.as_str().is_empty();
    [
        of_state && state == "open",
        late,
        of_state && state == "closed",
        of_state && state.is_empty(),
        owner.is_empty(),
        owner == "Me",
        owner == "Nobody",
    ]
}

fn is_ticked(text: &str) -> bool
    ensures { result ≡ is_ticked text.now }
{
    text == "yes"
}
