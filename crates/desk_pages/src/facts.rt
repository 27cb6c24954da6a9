//! What is told of a request before its history.
ghost use Rattle.std.specs.Prelude.{◌≡◌, ◌++◌, OnOk};
ghost use Rattle.std.specs.Option.{option_map};
ghost use Rattle.page_core.specs.Page.{page_bytes};
ghost use Rattle.desk_pages.specs.Facts as form;

use crate::lists::{put_links, put_roles};
use crate::local::{local_at, put_local};
use crate::markup::facts::{FACTS_END, FACTS_TOP, FILED_END, LEVEL};
use crate::pieces::{name_or, put_time_or_dash};
use crate::rows::{class_word, is_late};
use desk_model::{Dossier, RequestRow, Shown};
use hours_core::{Minute, Zone};
use page_core::{Value, fill};
use settings_core::Settings;
use std::alloc::AllocError;

/// Puts what is told of the request of this number to a caller at a moment. `buttons` is whether
/// persons can be taken out, and links away; `rows` tell of the requests that it is linked with.
pub(crate) fn put_facts(
    out: &mut Vec<u8>,
    buttons: bool,
    id: u32,
    caller: &str,
    moment: Minute,
    settings: &Settings,
    dossier: &Dossier,
    rows: &[RequestRow],
) -> Result<(), AllocError>
    ensures { OnOk result (out.new.items ≡ out.old.items
        ++ page_bytes (form.facts buttons id caller.now moment settings.now dossier.now rows.now)) }
{
    let shown = &dossier.shown;
    put_own_facts(out, moment, settings, dossier)?;
    put_roles(out, buttons, id, caller, shown)?;
    put_links(out, buttons, id, caller, rows, &shown.links)?;
    fill(out, FACTS_END, &[], &[])
}

/// Puts what its row tells, and when it is due.
#[tactic(auto, unfolding(crate::specs::Facts::own_facts))]
fn put_own_facts(
    out: &mut Vec<u8>,
    moment: Minute,
    settings: &Settings,
    dossier: &Dossier,
) -> Result<(), AllocError>
    ensures { OnOk result (out.new.items
        ≡ out.old.items ++ page_bytes (form.own_facts moment settings.now dossier.now)) }
{
    let row = &dossier.shown.row;
    let zone = zone_of(settings, row);
    let late = is_late(moment, dossier.shown.due);
    put_state(out, state_of(settings, dossier), late, row)?;
    put_due(out, zone, &dossier.shown)?;
    put_level(out, late, row)?;
    put_filed(out, zone, row)
}

fn put_due(out: &mut Vec<u8>, zone: Option<&Zone>, shown: &Shown) -> Result<(), AllocError>
    ensures { OnOk result (out.new.items ≡ out.old.items
        ++ page_bytes (form.due_fact (option_map (λ z. z.now) zone.entry) shown.now.due)) }
{
    put_time_or_dash(out, shown.due)?;
    put_local(out, local_at(zone, shown.due))
}

fn put_filed(out: &mut Vec<u8>, zone: Option<&Zone>, row: &RequestRow) -> Result<(), AllocError>
    ensures { OnOk result (out.new.items ≡ out.old.items
        ++ page_bytes (form.filed_fact (option_map (λ z. z.now) zone.entry) row.now.created)) }
{
    put_local(out, local_at(zone, Some(row.created)))?;
    fill(out, FILED_END, &[], &[])
}

#[tactic(auto, unfolding(crate::specs::Facts::state_facts))]
fn put_state<'t>(
    out: &mut Vec<u8>,
    state: &'t str,
    late: bool,
    row: &'t RequestRow,
) -> Result<(), AllocError>
    ensures { OnOk result (out.new.items
        ≡ out.old.items ++ page_bytes (form.state_facts state.now late row.now)) }
{
    let values = [
        Value::Text(state),
        Value::Text(row.status.as_str()),
        Value::Text(name_or(&row.owner, "Nobody")),
    ];
    fill(out, FACTS_TOP, &values, &[late])
}

#[tactic(auto, unfolding(crate::specs::Facts::level_facts))]
fn put_level(out: &mut Vec<u8>, late: bool, row: &RequestRow) -> Result<(), AllocError>
    ensures { OnOk result (out.new.items
        ≡ out.old.items ++ page_bytes (form.level_facts late row.now)) }
{
    let values = [
        Value::Text(name_or(&row.level, "–")),
        Value::Day(row.created),
        Value::Clock(row.created),
        Value::Day(row.created),
        Value::Clock(row.created),
    ];
    fill(out, LEVEL, &values, &[late])
}

/// The word for the class of its status in the lifecycle of its queue.
fn state_of(settings: &Settings, dossier: &Dossier) -> &'static str
    ensures { result.now ≡ form.state_of settings.now dossier.now }
{
    match settings.lifecycle(dossier.queue.lifecycle.as_str()) {
        Some(lifecycle) => class_word(lifecycle.class(dossier.shown.row.status.as_str())),
        None => class_word(None),
    }
}

/// The zone of its level's calendar, if it has one.
fn zone_of<'s>(settings: &'s Settings, row: &RequestRow) -> Option<&'s Zone>
    ensures { option_map (λ z. z.now) result ≡ form.zone_of settings.now row.now }
{
    match &row.level {
        Some(name) => zone_of_level(settings, name.as_str()),
        None => None,
    }
}

/// The zone of the calendar of the level of this name, if there is one.
fn zone_of_level<'s>(settings: &'s Settings, name: &str) -> Option<&'s Zone>
    ensures { option_map (λ z. z.now) result ≡ form.zone_of_level settings.now name.now }
{
    match settings.level(name) {
        Some(level) => settings.zone(level.calendar.as_str()),
        None => None,
    }
}
