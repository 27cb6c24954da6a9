//! The calendars of a settings text, and their zones.

ghost use Rattle.std.specs.Prelude.{◌≡◌, ◌≢◌, Some, IfOk, IfErr, Ok, Err};
ghost use Rattle.hours_core.specs.Hours.{Hours};
ghost use Rattle.hours_core.specs.declared.fault.HoursFault.TheVariants.{NoMemory};
ghost use Rattle.settings_parts.specs.CalendarParts.{hours_stated};
ghost use Rattle.settings_core.specs.Calendars as spec;

use crate::fault::SettingsFault;
use crate::stated::Stated;
use hours_core::{Calendar, HoursFault, Intervals, Zone};
use settings_parts::calendar::{CalendarParts, YEARS, calendar_of};
use std::alloc::{AllocError, Global};
use toml::Table;

/// A calendar, and the zone that its hours were given in.
#[derive(Drop)]
pub struct Opening {
    pub calendar: Calendar,
    pub zone: Zone,
}

impl Stated for Opening {
    ghost Parts = { Hours };

    ghost parts_of = { spec.table_hours };

    ghost fault_of = { spec.table_fault };

    ghost has = { spec.HasOpening };

    ghost standard_parts = { spec.standard_hours };

    fn read(alloc: Global, table: &Table) -> Result<Opening, SettingsFault> {
        let opening = opening_from(alloc, &calendar_of(alloc, table)?)?;
        Ok(opening)
    }

    /// Monday to Friday from 09:00 to 18:00 UTC, from 2000 to 2099.
    fn standard(alloc: Global) -> Result<Opening, SettingsFault> {
        let opening = opening_from(alloc, &standard_parts(alloc)?)?;
        Ok(opening)
    }
}

/// The calendar of its parts with its zone, or their least fault, that of the zone first.
fn opening_from(alloc: Global, parts: &CalendarParts) -> Result<Opening, HoursFault>
    ensures ok { IfOk result (spec.IsOpeningOf (hours_stated parts.now)) }
    ensures err { IfErr result (λ e. e ≢ NoMemory
        → spec.hours_fault (hours_stated parts.now) ≡ Some e) }
{
    let zone = zone_of(alloc, parts)?;
    let given = zone.copied(alloc)?;
    let holidays = parts.holidays.as_slice();
    let calendar = Calendar::build(alloc, given, &parts.week, holidays, parts.years)?;
    Ok(Opening { calendar, zone })
}

/// The zone of the rule, or of the offset and the changes where there is no rule.
fn zone_of(alloc: Global, parts: &CalendarParts) -> Result<Zone, HoursFault>
    ensures ok { IfOk result (λ z. (hours_stated parts.now).zone ≡ Ok z) }
    ensures err { IfErr result (λ e. e ≢ NoMemory → (hours_stated parts.now).zone ≡ Err e) }
{
    match &parts.rule {
        Some(rule) => Zone::by_rule(alloc, rule.as_str(), parts.years),
        None => Zone::build(alloc, parts.offset, parts.changes.as_slice()),
    }
}

/// Monday to Friday from 09:00 to 18:00 UTC, from 2000 to 2099.
fn standard_parts(alloc: Global) -> Result<CalendarParts, AllocError>
    ensures { IfOk result (λ p. hours_stated p ≡ spec.standard_stated) }
{
    let week = standard_week(alloc)?;
    Ok(CalendarParts {
        offset: 0,
        changes: Vec::new(alloc),
        rule: None,
        week,
        holidays: Vec::new(alloc),
        years: YEARS,
    })
}

/// Monday to Friday from 09:00 to 18:00.
fn standard_week(alloc: Global) -> Result<[Intervals; 7], AllocError>
    ensures { IfOk result (λ week. week ≡ spec.standard_stated.week) }
{
    Ok([
        Intervals::from(Vec::new(alloc)),
        working_day(alloc)?,
        working_day(alloc)?,
        working_day(alloc)?,
        working_day(alloc)?,
        working_day(alloc)?,
        Intervals::from(Vec::new(alloc)),
    ])
}

/// From 09:00 to 18:00.
fn working_day(alloc: Global) -> Result<Intervals, AllocError>
    ensures { IfOk result (λ day. day ≡ spec.working_day) }
{
    Ok(Intervals::from(vec![in alloc; (540, 1080)]?))
}
