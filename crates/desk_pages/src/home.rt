//! The first page.
ghost use Rattle.std.specs.Prelude.{◌≡◌, ◌++◌, IfOk, OnOk};
ghost use Rattle.std.specs.List.{flat_map};
ghost use Rattle.page_core.specs.Page.{page_bytes};
ghost use Rattle.desk_pages.specs.Home as form;

use crate::frame::{Place, put_bottom, put_top};
use crate::markup::home::{
    HOME_TOP, OPENING_END, OPENING_LEVELS, OPENING_TOP, QUEUE_ROW, QUEUES_END, QUEUES_TOP, REST,
    SECTION,
};
use crate::pieces::{name_or, put_choice};
use crate::rows::put_table;
use find_core::{Findings, QueueLoad};
use hours_core::Minute;
use page_core::{Value, fill};
use std::alloc::{AllocError, Global};
use text_core::Text;

/// The first page, for a caller at a moment: what is open of what the caller owns and asked for,
/// what each queue has open and late, what is open and nobody owns, and a form for another queue
/// with the names of lifecycles and levels to choose from.
pub fn home_page(
    alloc: Global,
    caller: &str,
    moment: Minute,
    own: &Findings,
    asked: &Findings,
    loads: &[QueueLoad],
    free: &Findings,
    lifecycles: &[Text],
    levels: &[Text],
) -> Result<Vec<u8>, AllocError>
    ensures { IfOk result (λ page. page.items ≡ page_bytes (form.home_page caller.now moment own.now
        asked.now loads.now free.now lifecycles.now levels.now)) }
{
    let mut out = Vec::new(alloc);
    put_top(&mut out, "Home", Place::Home, caller)?;
    put_lists(&mut out, caller, moment, own, asked)?;
    put_queues(&mut out, loads)?;
    put_section(&mut out, FREE, FREE_QUERY, caller, moment, free)?;
    put_opening(&mut out, caller, lifecycles, levels)?;
    put_bottom(&mut out, moment)?;
    Ok(out)
}

/// The title of each list, and the fields of the search for all of it.
const OWN: &str = "You own";

const OWN_QUERY: &str = "owner=Me&state=open&order=due";

const ASKED: &str = "You asked for";

const ASKED_QUERY: &str = "requestor=Me&state=open&order=due";

const FREE: &str = "Nobody owns";

const FREE_QUERY: &str = "owner=Nobody&state=open&order=due";

#[tactic(auto, unfolding(crate::specs::Home::lists))]
fn put_lists(
    out: &mut Vec<u8>,
    caller: &str,
    moment: Minute,
    own: &Findings,
    asked: &Findings,
) -> Result<(), AllocError>
    ensures { OnOk result (out.new.items ≡ out.old.items
        ++ page_bytes (form.lists caller.now moment own.now asked.now)) }
{
    fill(out, HOME_TOP, &[], &[])?;
    put_section(out, OWN, OWN_QUERY, caller, moment, own)?;
    put_section(out, ASKED, ASKED_QUERY, caller, moment, asked)
}

/// Puts how many of a list there are, and the first of them if there are any.
#[tactic(auto, unfolding(crate::specs::Home::section))]
fn put_section(
    out: &mut Vec<u8>,
    title: &str,
    query: &str,
    caller: &str,
    moment: Minute,
    found: &Findings,
) -> Result<(), AllocError>
    ensures { OnOk result (out.new.items ≡ out.old.items
        ++ page_bytes (form.section title.now query.now caller.now moment found.now)) }
{
    let values = [Value::Text(title), Value::Number(found.count)];
    fill(out, SECTION, &values, &[])?;
    if found.count == 0 {
        return Ok(());
    }
    put_table(out, title, caller, moment, found.rows.as_slice())?;
    fill(out, REST, &[Value::Text(query)], &[])
}

#[tactic(auto, unfolding(crate::specs::Home::queues))]
fn put_queues(out: &mut Vec<u8>, loads: &[QueueLoad]) -> Result<(), AllocError>
    ensures { OnOk result (out.new.items
        ≡ out.old.items ++ page_bytes (form.queues loads.now)) }
{
    fill(out, QUEUES_TOP, &[], &[])?;
    put_queue_rows(out, loads)?;
    fill(out, QUEUES_END, &[], &[])
}

fn put_queue_rows(out: &mut Vec<u8>, loads: &[QueueLoad]) -> Result<(), AllocError>
    ensures { OnOk result (out.new.items
        ≡ out.old.items ++ page_bytes (flat_map form.queue_row loads.now)) }
{
    for load in loads {
        put_queue_row(out, load)?;
    }
    Ok(())
}

#[tactic(auto, unfolding(crate::specs::Home::queue_row))]
fn put_queue_row(out: &mut Vec<u8>, load: &QueueLoad) -> Result<(), AllocError>
    ensures { OnOk result (out.new.items
        ≡ out.old.items ++ page_bytes (form.queue_row load.now)) }
{
    let values = [
        Value::Text(load.queue.name.as_str()),
        Value::Text(load.queue.name.as_str()),
        Value::Text(load.queue.name.as_str()),
        Value::Number(load.open),
        Value::Text(load.queue.name.as_str()),
        Value::Number(load.late),
        Value::Text(name_or(&load.queue.level, "–")),
        Value::Text(load.queue.name.as_str()),
        Value::Text(load.queue.name.as_str()),
    ];
    fill(out, QUEUE_ROW, &values, &[load.late != 0])
}

/// Puts the form for another queue, for a caller.
#[tactic(auto, unfolding(crate::specs::Home::opening))]
fn put_opening(
    out: &mut Vec<u8>,
    caller: &str,
    lifecycles: &[Text],
    levels: &[Text],
) -> Result<(), AllocError>
    ensures { OnOk result (out.new.items
        ≡ out.old.items ++ page_bytes (form.opening caller.now lifecycles.now levels.now)) }
{
    fill(out, OPENING_TOP, &[Value::Text(caller)], &[])?;
    put_choices(out, lifecycles)?;
    fill(out, OPENING_LEVELS, &[], &[])?;
    put_choices(out, levels)?;
    fill(out, OPENING_END, &[], &[])
}

fn put_choices(out: &mut Vec<u8>, names: &[Text]) -> Result<(), AllocError>
    ensures { OnOk result (out.new.items
        ≡ out.old.items ++ page_bytes (form.choices names.now)) }
{
    for name in names {
        put_choice(out, false, name.as_str())?;
    }
    Ok(())
}
