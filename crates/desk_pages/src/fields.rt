//! The forms by which a request gets another level, other watchers and other links.
ghost use Rattle.std.specs.Prelude.{◌≡◌, ◌++◌, OnOk};
ghost use Rattle.std.specs.List.{flat_map};
ghost use Rattle.page_core.specs.Page.{page_bytes};
ghost use Rattle.desk_pages.specs.Fields as form;
ghost use Rattle.desk_pages.specs.Pieces.{parts_if};

use crate::markup::fields::{LEVEL_END, LEVEL_TOP, LINKING, WATCHING};
use crate::pieces::put_choice;
use hours_core::Level;
use page_core::{Value, fill};
use settings_core::Named;
use std::alloc::AllocError;
use text_core::Text;

/// What a field for the number of a request takes, as browsers are told it.
const DIGITS: &str = "[0-9]+";

/// Puts the forms for the level, in which the present one is chosen at first, and for links, where the
/// request may be changed, and the one for watchers, where persons may be set.
pub(crate) fn put_field_forms(
    out: &mut Vec<u8>,
    id: u32,
    caller: &str,
    present: &Option<Text>,
    levels: &[Named<Level>],
    modifies: bool,
    sets: bool,
) -> Result<(), AllocError>
    ensures { OnOk result (out.new.items ≡ out.old.items
        ++ page_bytes (form.field_forms id caller.now present.now levels.now modifies sets)) }
{
    put_level_form(out, id, caller, present, levels, modifies)?;
    put_watching(out, id, caller, sets)?;
    put_linking(out, id, caller, modifies)
}

#[tactic(auto, unfolding(crate::specs::Fields::level_form))]
fn put_level_form(
    out: &mut Vec<u8>,
    id: u32,
    caller: &str,
    present: &Option<Text>,
    levels: &[Named<Level>],
    modifies: bool,
) -> Result<(), AllocError>
    ensures { OnOk result (out.new.items ≡ out.old.items
        ++ page_bytes (parts_if modifies (form.level_form id caller.now present.now levels.now))) }
{
    if !modifies {
        return Ok(());
    }
    fill(
        out,
        LEVEL_TOP,
        &[Value::Number(id), Value::Text(caller)],
        &[],
    )?;
    put_level_rows(out, present, levels)?;
    fill(out, LEVEL_END, &[], &[])
}

#[tactic(auto, unfolding(crate::specs::Fields::watching))]
fn put_watching(out: &mut Vec<u8>, id: u32, caller: &str, sets: bool) -> Result<(), AllocError>
    ensures { OnOk result (out.new.items
        ≡ out.old.items ++ page_bytes (parts_if sets (form.watching id caller.now))) }
{
    if sets {
        let values = [Value::Number(id), Value::Text(caller), Value::Number(id)];
        fill(out, WATCHING, &values, &[])
    } else {
        Ok(())
    }
}

#[tactic(auto, unfolding(crate::specs::Fields::linking))]
fn put_linking(out: &mut Vec<u8>, id: u32, caller: &str, modifies: bool) -> Result<(), AllocError>
    ensures { OnOk result (out.new.items
        ≡ out.old.items ++ page_bytes (parts_if modifies (form.linking id caller.now))) }
{
    if modifies {
        let values = [
            Value::Number(id),
            Value::Text(caller),
            Value::Text(DIGITS),
            Value::Number(id),
        ];
        fill(out, LINKING, &values, &[])
    } else {
        Ok(())
    }
}

fn put_level_rows(
    out: &mut Vec<u8>,
    present: &Option<Text>,
    levels: &[Named<Level>],
) -> Result<(), AllocError>
    ensures { OnOk result (out.new.items
        ≡ out.old.items ++ page_bytes (flat_map (form.level_row present.now) levels.now)) }
{
    for level in levels {
        let name = level.name.as_str();
        put_choice(out, is_present(present, name), name)?;
    }
    Ok(())
}

/// Whether it is the present level.
fn is_present(present: &Option<Text>, name: &str) -> bool
    ensures { result ≡ form.is_present present.now name.now }
{
    match present {
        Some(level) => level.as_str() == name,
        None => false,
    }
}
