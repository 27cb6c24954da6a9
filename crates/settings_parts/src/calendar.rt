//! The parts of a calendar.

ghost use Rattle.std.specs.Prelude.{◌≡◌, IfOk, map};
ghost use Rattle.toml.specs.View.{table_view};
ghost use Rattle.settings_form.specs.TextForms.{day_of as day_in, interval_of as interval_in};
ghost use Rattle.settings_parts.specs.CalendarParts as spec;

use crate::values::{integer_at, pair_at, pairs_at, text_at, texts_at};
use hours_core::Intervals;
use settings_form::text_forms::{day_of, interval_of};
use std::alloc::{AllocError, Global};
use text_core::Text;
use toml::Table;

/// The parts that a calendar is built of.
#[derive(Drop)]
pub struct CalendarParts {
    /// The minutes before or after UTC, before all changes.
    pub offset: i64,
    /// The minute of each change, and the offset from there on.
    pub changes: Vec<(i64, i64)>,
    /// The rule of the zone, which then stands in place of the offset and the changes.
    pub rule: Option<Text>,
    /// The intervals of each day of the week, from Sunday on.
    pub week: [Intervals; 7],
    /// The days that are holidays, counted from 1970-01-01.
    pub holidays: Vec<u32>,
    /// The first and the last year.
    pub years: (i64, i64),
}

/// The years of a calendar that doesn't say them.
pub const YEARS: (i64, i64) = (2000, 2099);

/// The intervals at a day of the week.
fn intervals_at(alloc: Global, table: &Table, day: &str) -> Result<Intervals, AllocError>
    ensures { IfOk result (λ i. i ≡ spec.intervals_at day.now (table_view table.now)) }
{
    let texts = texts_at(alloc, table, day)?;
    Ok(Intervals::from(intervals_of(alloc, texts.as_slice())?))
}

fn intervals_of(alloc: Global, texts: &[Text]) -> Result<Vec<(u16, u16)>, AllocError>
    ensures { IfOk result (λ v. v.items ≡ map interval_in texts.now) }
{
    texts
        .iter()
        .map(|text| interval_of(text.as_str()))
        .collect(alloc)
}

/// The days that are holidays.
fn holidays_at(alloc: Global, table: &Table) -> Result<Vec<u32>, AllocError>
    ensures { IfOk result (λ v. v.items ≡ spec.holidays_of (table_view table.now)) }
{
    let texts = texts_at(alloc, table, "holidays")?;
    days_of(alloc, texts.as_slice())
}

fn days_of(alloc: Global, texts: &[Text]) -> Result<Vec<u32>, AllocError>
    ensures { IfOk result (λ v. v.items ≡ map day_in texts.now) }
{
    texts
        .iter()
        .map(|text| day_of(text.as_str()))
        .collect(alloc)
}

fn week_of(alloc: Global, table: &Table) -> Result<[Intervals; 7], AllocError>
    ensures { IfOk result (λ w. w ≡ spec.week_of (table_view table.now)) }
{
    Ok([
        intervals_at(alloc, table, "sun")?,
        intervals_at(alloc, table, "mon")?,
        intervals_at(alloc, table, "tue")?,
        intervals_at(alloc, table, "wed")?,
        intervals_at(alloc, table, "thu")?,
        intervals_at(alloc, table, "fri")?,
        intervals_at(alloc, table, "sat")?,
    ])
}

/// The parts of the calendar that a table states.
pub fn calendar_of(alloc: Global, table: &Table) -> Result<CalendarParts, AllocError>
    ensures { IfOk result (λ p. spec.hours_stated p ≡ spec.hours_of (table_view table.now)) }
{
    Ok(CalendarParts {
        offset: integer_at(table, "offset").unwrap_or(0),
        changes: pairs_at(alloc, table, "changes")?,
        rule: text_at(alloc, table, "rule")?,
        week: week_of(alloc, table)?,
        holidays: holidays_at(alloc, table)?,
        years: pair_at(table, "years").unwrap_or(YEARS),
    })
}
