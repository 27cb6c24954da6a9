//! Levels and their limits.

ghost use Rattle.std.specs.Prelude.{◌≡◌, ◌≤◌, IfOk};
ghost use Rattle.std.specs.Option.{option_map};
ghost use Rattle.toml.specs.View.{table_view};
ghost use Rattle.settings_parts.specs.LevelParts as spec;

use crate::values::{boolean_at, integer_at, text_or_empty, texts_at};
use hours_core::{Level, Limit};
use settings_form::kinds::value_at;
use std::alloc::{AllocError, Global};
use toml::Table;

/// The most minutes of a limit: a year.
const MOST_MINUTES: u32 = 525_600;

/// Whether the number is from 1 to the most.
pub fn is_from_one(most: u32, number: i64) -> bool
    ensures { result ≡ spec.is_from_one most number }
{
    within(most, number).is_some()
}

/// The number where it is from 1 to the most, and else 0.
pub fn number_up_to(most: u32, number: i64) -> u32
    ensures { result ≡ spec.number_up_to most number }
{
    within(most, number).unwrap_or(0)
}

/// The number where it is from 1 to the most.
fn within(most: u32, number: i64) -> Option<u32>
    ensures { result ≡ spec.within most number }
{
    if 1 <= number && number <= most as i64 {
        Some(number as u32)
    } else {
        None
    }
}

/// The limit of so many real or business minutes: one of the two, from 1 to a year of them.
fn limit_in(real: Option<i64>, business: Option<i64>) -> Option<Limit>
    ensures { result ≡ spec.limit_in real business }
{
    match (real, business) {
        (Some(minutes), None) => Some(Limit::RealMinutes(within(MOST_MINUTES, minutes)?)),
        (None, Some(minutes)) => Some(Limit::BusinessMinutes(within(MOST_MINUTES, minutes)?)),
        _ => None,
    }
}

/// The limit that a table states, or none where it doesn't state one.
fn limit_of(table: &Table) -> Option<Limit>
    ensures { result ≡ spec.limit_of (table_view table.now) }
{
    limit_in(
        integer_at(table, "real_minutes"),
        integer_at(table, "business_minutes"),
    )
}

fn limit_table<'a>(table: &'a Table, key: &str) -> Option<&'a Table>
    ensures { option_map (λ t. table_view t.now) result
        ≡ spec.limit_table key.now (table_view table.now) }
{
    match value_at(table, key) {
        Some(value) => value.as_table(),
        None => None,
    }
}

fn limit_at(table: &Table, key: &str) -> Option<Limit>
    ensures { result ≡ spec.limit_at key.now (table_view table.now) }
{
    match limit_table(table, key) {
        Some(limit) => limit_of(limit),
        None => None,
    }
}

/// Whether the limit at a key, if there is one, has one unit, and from 1 minute to a year of them.
pub fn has_limit_at(table: &Table, key: &str) -> bool
    ensures { result ≡ spec.has_limit_at key.now (table_view table.now) }
{
    match limit_table(table, key) {
        Some(limit) => limit_of(limit).is_some(),
        None => true,
    }
}

/// The level that a table states.
pub fn level_of(alloc: Global, table: &Table) -> Result<Level, AllocError>
    ensures { IfOk result (λ l. l ≡ spec.level_of (table_view table.now)) }
{
    Ok(Level {
        calendar: text_or_empty(alloc, table, "calendar")?,
        start_immediately: boolean_at(table, "start_immediately").unwrap_or(false),
        response: limit_at(table, "response"),
        keep_in_loop: limit_at(table, "keep_in_loop"),
        resolve: limit_at(table, "resolve"),
        ignore: texts_at(alloc, table, "ignore")?,
    })
}
