//! What is sought, each part with a link that takes it away.
ghost use Rattle.std.specs.Prelude.{◌≡◌, ◌++◌, map, OnOk};
ghost use Rattle.std.specs.List.{flat_map};
ghost use Rattle.page_core.specs.Page.{page_bytes};
ghost use Rattle.desk_pages.specs.Chips as form;
ghost use Rattle.desk_pages.specs.Sought.{plain};

use crate::markup::chips::{CHIP, CHIPS_END, CHIPS_TOP};
use crate::sought::{SearchPart, is_told, sought_in};
use find_form::{FindForm, others_of};
use page_core::{Value, fill};
use std::alloc::{AllocError, Global};

/// Puts what is sought by these fields of an address, where that has to be told.
pub(crate) fn put_chips(
    alloc: Global,
    out: &mut Vec<u8>,
    query: &str,
    typed: &FindForm,
) -> Result<(), AllocError>
    ensures { OnOk result (out.new.items
        ≡ out.old.items ++ page_bytes (form.chips query.now typed.now)) }
{
    if is_told(typed) {
        put_list(alloc, out, query, typed)
    } else {
        Ok(())
    }
}

#[tactic(auto, unfolding(crate::specs::Chips::chip_list))]
fn put_list(
    alloc: Global,
    out: &mut Vec<u8>,
    query: &str,
    typed: &FindForm,
) -> Result<(), AllocError>
    ensures { OnOk result (out.new.items
        ≡ out.old.items ++ page_bytes (form.chip_list query.now typed.now)) }
{
    fill(out, CHIPS_TOP, &[], &[])?;
    put_parts(alloc, out, query, typed)?;
    fill(out, CHIPS_END, &[], &[])
}

/// Puts each part of what is sought.
fn put_parts(
    alloc: Global,
    out: &mut Vec<u8>,
    query: &str,
    typed: &FindForm,
) -> Result<(), AllocError>
    ensures { OnOk result (out.new.items
        ≡ out.old.items ++ page_bytes (form.chips_in query.now typed.now)) }
{
    put_each(alloc, out, query, &sought_in(typed))
}

fn put_each(
    alloc: Global,
    out: &mut Vec<u8>,
    query: &str,
    parts: &[SearchPart<'_>],
) -> Result<(), AllocError>
    ensures { OnOk result (out.new.items ≡ out.old.items
        ++ page_bytes (flat_map (form.chip query.now) (map plain parts.now))) }
{
    for part in parts {
        put_chip(alloc, out, query, part)?;
    }
    Ok(())
}

/// Puts a part, with a link to the search without its fields.
fn put_chip(
    alloc: Global,
    out: &mut Vec<u8>,
    query: &str,
    part: &SearchPart<'_>,
) -> Result<(), AllocError>
    ensures { OnOk result (out.new.items
        ≡ out.old.items ++ page_bytes (form.chip query.now (plain part.now))) }
{
    let others = others_of(alloc, query, &[part.field, part.beside])?;
    put_told(out, others.as_str(), *part)
}

#[tactic(auto, unfolding(crate::specs::Chips::chip_beside))]
fn put_told<'t>(out: &mut Vec<u8>, others: &'t str, part: SearchPart<'t>) -> Result<(), AllocError>
    ensures { OnOk result (out.new.items ≡ out.old.items
        ++ page_bytes (form.chip_beside others.entry.now (plain part.entry))) }
{
    let values = [
        Value::Text(part.field),
        Value::Text(others),
        Value::Text(part.front),
        Value::Text(part.value),
        Value::Text(part.back),
    ];
    fill(out, CHIP, &values, &[part.asked])
}
