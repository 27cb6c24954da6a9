//! A table of requests that were found.
ghost use Rattle.std.specs.Prelude.{◌≡◌, ◌++◌, OnOk};
ghost use Rattle.std.specs.List.{flat_map};
ghost use Rattle.page_core.specs.Page.{page_bytes};
ghost use Rattle.desk_pages.specs.Rows as form;

use crate::markup::rows::{ASKING, ROW_CELLS, ROW_END, ROW_TOP, TABLE_TOP};
use crate::pieces::{name_or, put_table_end, put_time_or_dash};
use desk_model::Turn;
use find_core::Found;
use hours_core::Minute;
use lifecycle_core::Class;
use page_core::{Value, fill};
use std::alloc::AllocError;
use text_core::Text;

/// Puts a table with a row for each of these, for a caller at a moment.
#[tactic(auto, unfolding(crate::specs::Rows::table))]
pub(crate) fn put_table(
    out: &mut Vec<u8>,
    caption: &str,
    caller: &str,
    moment: Minute,
    rows: &[Found],
) -> Result<(), AllocError>
    ensures { OnOk result (out.new.items ≡ out.old.items
        ++ page_bytes (form.table caption.now caller.now moment rows.now)) }
{
    fill(out, TABLE_TOP, &[Value::Text(caption)], &[])?;
    put_rows(out, caller, moment, rows)?;
    put_table_end(out)
}

fn put_rows(
    out: &mut Vec<u8>,
    caller: &str,
    moment: Minute,
    rows: &[Found],
) -> Result<(), AllocError>
    ensures { OnOk result (out.new.items ≡ out.old.items
        ++ page_bytes (flat_map (form.row caller.now moment) rows.now)) }
{
    for found in rows {
        put_row(out, caller, moment, found)?;
    }
    Ok(())
}

#[tactic(auto, unfolding(crate::specs::Rows::row))]
fn put_row(out: &mut Vec<u8>, caller: &str, moment: Minute, found: &Found) -> Result<(), AllocError>
    ensures { OnOk result (out.new.items ≡ out.old.items
        ++ page_bytes (form.row caller.now moment found.now)) }
{
    let late = is_late(moment, found.due);
    put_row_top(out, caller, late, found)?;
    put_asking(out, found.requestors.as_slice())?;
    put_cells(out, found)?;
    put_time_or_dash(out, found.due)?;
    put_row_end(out, late, late_by(moment, found.due), found.last)
}

#[tactic(auto, unfolding(crate::specs::Rows::row_top))]
fn put_row_top(out: &mut Vec<u8>, caller: &str, late: bool, found: &Found) -> Result<(), AllocError>
    ensures { OnOk result (out.new.items ≡ out.old.items
        ++ page_bytes (form.row_top caller.now late found.now)) }
{
    let mine = is_of(caller, &found.owner);
    let nobody = found.owner.is_none();
    let values = [
        Value::Text(class_word(found.class)),
        Value::Number(found.id),
        Value::Number(found.id),
        Value::Text(found.subject.as_str()),
    ];
    fill(out, ROW_TOP, &values, &[mine, nobody, late])
}

fn put_asking(out: &mut Vec<u8>, persons: &[Text]) -> Result<(), AllocError>
    ensures { OnOk result (out.new.items
        ≡ out.old.items ++ page_bytes (flat_map form.asking persons.now)) }
{
    for person in persons {
        put_person(out, person.as_str())?;
    }
    Ok(())
}

#[tactic(auto, unfolding(crate::specs::Rows::asking))]
fn put_person(out: &mut Vec<u8>, person: &str) -> Result<(), AllocError>
    ensures { OnOk result (out.new.items ≡ out.old.items ++ page_bytes (form.asking person.now)) }
{
    fill(out, ASKING, &[Value::Text(person)], &[])
}

#[tactic(auto, unfolding(crate::specs::Rows::cells))]
fn put_cells(out: &mut Vec<u8>, found: &Found) -> Result<(), AllocError>
    ensures { OnOk result (out.new.items ≡ out.old.items ++ page_bytes (form.cells found.now)) }
{
    let values = [
        Value::Text(found.queue.as_str()),
        Value::Text(class_word(found.class)),
        Value::Text(found.status.as_str()),
        Value::Text(waits_for(found.class, found.turn)),
        Value::Text(name_or(&found.owner, "Nobody")),
    ];
    fill(out, ROW_CELLS, &values, &[])
}

#[tactic(auto, unfolding(crate::specs::Rows::row_end))]
fn put_row_end(out: &mut Vec<u8>, late: bool, by: u32, last: Minute) -> Result<(), AllocError>
    ensures { OnOk result (out.new.items
        ≡ out.old.items ++ page_bytes (form.row_end late by last)) }
{
    fill(
        out,
        ROW_END,
        &[
            Value::Span(by),
            Value::Day(last),
            Value::Clock(last),
            Value::Day(last),
            Value::Clock(last),
        ],
        &[late],
    )
}

/// What is told of a request that waits for nobody.
const FOR_NOBODY: &str = "–";

/// For whom a request waits; one that is closed waits for nobody.
fn waits_for(class: Option<Class>, turn: Turn) -> &'static str
    ensures { result.now ≡ form.waits_for class turn }
{
    match (class, turn) {
        (Some(Class::Inactive), _) => FOR_NOBODY,
        (_, Turn::Desk) => "the desk",
        (_, Turn::Requestor) => "who asked",
    }
}

/// The word for the class of a status.
pub(crate) fn class_word(class: Option<Class>) -> &'static str
    ensures { result.now ≡ form.word_of_class class }
{
    match class {
        Some(Class::Initial) => "initial",
        Some(Class::Active) => "active",
        Some(Class::Inactive) => "inactive",
        None => "",
    }
}

/// Whether the caller owns it.
pub(crate) fn is_of(caller: &str, owner: &Option<Text>) -> bool
    ensures { result ≡ form.is_of caller.now owner.now }
{
    match owner {
        Some(owner) => owner.as_str() == caller,
        None => false,
    }
}

/// Whether it was due before.
pub(crate) fn is_late(moment: Minute, due: Option<Minute>) -> bool
    ensures { result ≡ form.is_late moment due }
{
    match due {
        Some(due) => due.get() < moment.get(),
        None => false,
    }
}

/// For how many minutes it has been late.
fn late_by(moment: Minute, due: Option<Minute>) -> u32
    ensures { result ≡ form.late_by moment due }
{
    match due {
        Some(due) => moment.get().saturating_sub(due.get()),
        None => 0,
    }
}
