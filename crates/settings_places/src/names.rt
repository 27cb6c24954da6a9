//! The name that isn't known.

ghost use Rattle.std.specs.Prelude.{◌≡◌, IfOk};
ghost use Rattle.std.specs.Option.{option_map, option_or};
ghost use Rattle.toml.specs.View.{table_view};
ghost use Rattle.settings_core.specs.Settings.{lifecycles_of, levels_of, people_of, tokens_of};
ghost use Rattle.settings_places.specs.Place as spec;

use crate::grants::grant_at;
use crate::place::FaultPlace;
use hours_core::Level;
use lifecycle_core::Lifecycle;
use rights_core::{Grant, People};
use settings_core::known::statuses_of;
use settings_core::names::{
    ignoring_other, other_status, unknown_calendar, unknown_person, unknown_right,
};
use settings_core::{Named, Settings, SettingsFault};
use settings_parts::people::Token;
use std::alloc::{AllocError, Global};
use toml::Table;

/// The first name that isn't known: a granted right, a level's calendar, a status that a level
/// ignores, or a token's person. None where a calendar, a lifecycle or the people have a fault.
pub(crate) fn name_place<'t>(
    alloc: Global,
    table: &Table,
) -> Result<Option<FaultPlace<'t>>, AllocError>
    ensures { IfOk result (λ place. option_map spec.seen place
        ≡ spec.name_place (table_view table.now)) }
{
    match Settings::built(alloc, table) {
        Ok(settings) => unknown_name(alloc, table, &settings),
        Err(SettingsFault::NoMemory) => Err(AllocError),
        Err(_) => Ok(None),
    }
}

fn unknown_name<'t>(
    alloc: Global,
    table: &Table,
    settings: &Settings,
) -> Result<Option<FaultPlace<'t>>, AllocError>
    ensures { IfOk result (λ place. option_map spec.seen place
        ≡ spec.unknown_name (table_view table.now) (lifecycles_of settings.now)
        (people_of settings.now) (levels_of settings.now) (tokens_of settings.now)) }
{
    let grants = settings.people().parts().grants.as_slice();
    match right_place(alloc, table, settings.lifecycles(), grants)? {
        Some(place) => Ok(Some(place)),
        None => name_in_levels(alloc, table, settings),
    }
}

/// The first of the names that levels and tokens have.
fn name_in_levels<'t>(
    alloc: Global,
    table: &Table,
    settings: &Settings,
) -> Result<Option<FaultPlace<'t>>, AllocError>
    ensures { IfOk result (λ place. option_map spec.seen place
        ≡ option_or (spec.calendar_place (table_view table.now) (levels_of settings.now))
        (option_or (spec.status_place (lifecycles_of settings.now) (levels_of settings.now))
        (spec.person_place (people_of settings.now) (tokens_of settings.now)))) }
{
    match calendar_place(table, settings.levels())? {
        Some(place) => Ok(Some(place)),
        None => status_or_person(alloc, settings),
    }
}

/// The first status that a level ignores, or else the first person of a token.
fn status_or_person<'t>(
    alloc: Global,
    settings: &Settings,
) -> Result<Option<FaultPlace<'t>>, AllocError>
    ensures { IfOk result (λ place. option_map spec.seen place
        ≡ option_or (spec.status_place (lifecycles_of settings.now) (levels_of settings.now))
        (spec.person_place (people_of settings.now) (tokens_of settings.now))) }
{
    match status_place(alloc, settings.lifecycles(), settings.levels())? {
        Some(place) => Ok(Some(place)),
        None => person_place(settings.people(), settings.tokens()),
    }
}

/// The first grant of a right that isn't known, and the right.
fn right_place<'t>(
    alloc: Global,
    table: &Table,
    lifecycles: &[Named<Lifecycle>],
    grants: &[Grant],
) -> Result<Option<FaultPlace<'t>>, AllocError>
    ensures { IfOk result (λ place. option_map spec.seen place
        ≡ spec.right_place (table_view table.now) lifecycles.now grants.now) }
{
    let Some(index) = unknown_right(alloc, lifecycles, grants)? else {
        return Ok(None);
    };
    match grant_at(alloc, table, grants, index)? {
        Some((number, _, grant)) => Ok(Some(FaultPlace::Right(number, grant.right.clone()?))),
        None => Ok(None),
    }
}

/// The first level whose calendar isn't known, and the calendar.
fn calendar_place<'t>(
    table: &Table,
    levels: &[Named<Level>],
) -> Result<Option<FaultPlace<'t>>, AllocError>
    ensures { IfOk result (λ place. option_map spec.seen place
        ≡ spec.calendar_place (table_view table.now) levels.now) }
{
    match unknown_calendar(table, levels) {
        Some(level) => Ok(Some(FaultPlace::CalendarOf(
            level.name.clone()?,
            level.value.calendar.clone()?,
        ))),
        None => Ok(None),
    }
}

/// The first level that ignores a status that isn't known, and the status.
fn status_place<'t>(
    alloc: Global,
    lifecycles: &[Named<Lifecycle>],
    levels: &[Named<Level>],
) -> Result<Option<FaultPlace<'t>>, AllocError>
    ensures { IfOk result (λ place. option_map spec.seen place
        ≡ spec.status_place lifecycles.now levels.now) }
{
    let statuses = statuses_of(alloc, lifecycles)?;
    let Some(level) = ignoring_other(&statuses, levels) else {
        return Ok(None);
    };
    match other_status(&statuses, level.value.ignore.as_slice()) {
        Some(status) => Ok(Some(FaultPlace::StatusOf(level.name.clone()?, status.clone()?))),
        None => Ok(None),
    }
}

/// The first token whose person isn't known, and the person.
fn person_place<'t>(people: &People, tokens: &[Token]) -> Result<Option<FaultPlace<'t>>, AllocError>
    ensures { IfOk result (λ place. option_map spec.seen place
        ≡ spec.person_place people.now tokens.now) }
{
    match unknown_person(people, tokens) {
        Some(found) => Ok(Some(FaultPlace::PersonOf(found.token.clone()?, found.person.clone()?))),
        None => Ok(None),
    }
}
