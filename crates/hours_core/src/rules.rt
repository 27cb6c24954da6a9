//! Zones by a rule, from stretch to stretch of one offset.

ghost use Rattle.std.specs.Prelude.{◌≡◌, ◌≢◌, ◌≤◌, ◌<◌, ◌-◌, ◌+◌, ◌+ℤ◌, ◌≤ℤ◌, pos, suc, true, false};
ghost use Rattle.std.specs.Prelude.{IfOk, IfErr, IsOk};
ghost use Rattle.hours_core.specs.Moment.{end_minute};
ghost use Rattle.hours_core.specs.Hours.{are_years as have_years};
ghost use Rattle.hours_core.specs.Rules as spec;

use crate::fault::HoursFault;
use crate::years::{are_years, end_asked, first_asked};
use crate::zone::{MAX_CHANGES, Zone, is_offset};
use std::alloc::{AllocError, Global};
use zone_rules::Rule;

impl Zone {
    /// The zone of a rule such as `CET-1CEST,M3.5.0,M10.5.0/3`, in the years from the first to the
    /// last and on the days just before and after them.
    ///
    /// Refused are years that are not from 2000 to 2099 or of which the first is after the last
    /// (`BadYears`), a text that is no rule (`BadRule`), an offset there that isn't of whole
    /// minutes or is a day or more (`BadOffset`), and more than 400 changes of the offset
    /// (`TooManyChanges`), in this order. `NoMemory` may come in place of a zone or of one of the
    /// last two.
    pub fn by_rule(alloc: Global, text: &str, years: (i64, i64)) -> Result<Zone, HoursFault>
        ensures ok { IfOk result (λ z. spec.zone_by_rule text.now years ≡ Ok z) }
        ensures err { IfErr result
            (λ e. e ≢ HoursFault.NoMemory → spec.zone_by_rule text.now years ≡ Err e) }
        ensures offsets { IfOk result (spec.FollowsRule text.now years) }
        ensures jiff { spec.FollowsJiff text.now years result }
    {
        if !are_years(years) {
            return Err(HoursFault::BadYears);
        }
        match Rule::read(text) {
            Some(rule) => zone_of(alloc, &rule, years),
            None => Err(HoursFault::BadRule),
        }
    }
}

/// The zone that the rule has in the years and on the days just before and after them.
fn zone_of(alloc: Global, rule: &Rule, years: (i64, i64)) -> Result<Zone, HoursFault>
    requires { have_years years ≡ true }
    ensures ok { IfOk result (λ z. spec.zone_by (Some rule.now) years ≡ Ok z) }
    ensures err { IfErr result
        (λ e. e ≢ HoursFault.NoMemory → spec.zone_by (Some rule.now) years ≡ Err e) }
{
    zone_between(alloc, rule, first_asked(years), end_asked(years))
}

/// The zone of the rule's offsets from the first minute to before the end.
fn zone_between(alloc: Global, rule: &Rule, first: u32, end: u32) -> Result<Zone, HoursFault>
    requires { (first < end) × (end ≤ end_minute) }
    ensures ok { IfOk result
        (λ z. spec.zone_in (spec.seconds_of rule.now) first (end - suc first) ≡ Ok z) }
    ensures err { IfErr result (λ e. e ≢ HoursFault.NoMemory
        → spec.zone_in (spec.seconds_of rule.now) first (end - suc first) ≡ Err e) }
{
    let start = minutes_at(rule, first)?;
    let changes = changes_between(alloc, rule, first, start, end)?;
    if changes.len() > MAX_CHANGES {
        return Err(HoursFault::TooManyChanges);
    }
    Ok(Zone::of_parts(start, changes))
}

/// The minutes by which local time is ahead of UTC at the minute, or `BadOffset` where they aren't
/// whole minutes, or a day or more.
fn minutes_at(rule: &Rule, minute: u32) -> Result<i64, HoursFault>
    requires { minute ≤ end_minute }
    ensures ok { IfOk result (λ o. (spec.are_minutes (spec.seconds_of rule.now minute) ≡ true)
        × (o ≡ spec.to_minutes (spec.seconds_of rule.now minute))) }
    ensures err { IfErr result (λ e. (e ≡ HoursFault.BadOffset)
        × (spec.are_minutes (spec.seconds_of rule.now minute) ≡ false)) }
{
    let seconds = rule.offset_at(minute) as i64;
    let minutes = seconds / 60;
    if minutes * 60 == seconds && is_offset(minutes) {
        Ok(minutes)
    } else {
        Err(HoursFault::BadOffset)
    }
}

/// The changes after the first minute, which has the offset `start`, to before the end.
fn changes_between(
    alloc: Global,
    rule: &Rule,
    first: u32,
    start: i64,
    end: u32,
) -> Result<Vec<(i64, i64)>, HoursFault>
    requires range { (first < end) × (end ≤ end_minute) }
    requires minutes { spec.are_minutes (spec.seconds_of rule.now first) ≡ true }
    requires start { start ≡ spec.to_minutes (spec.seconds_of rule.now first) }
    ensures ok { IfOk result (λ v.
        (spec.are_offsets (spec.seconds_of rule.now) first (end - suc first) ≡ true)
        × (v.items ≡ spec.changes_of (λ m. spec.to_minutes (spec.seconds_of rule.now m)) first
        (end - suc first))) }
    ensures err { IfErr result (λ e. e ≢ HoursFault.NoMemory → (e ≡ HoursFault.BadOffset)
        × (spec.are_offsets (spec.seconds_of rule.now) first (end - suc first) ≡ false)) }
{
    let mut changes = Vec::new(alloc);
    let mut last = start;
    let mut minute = rule.stretch_end(first).min(end);
    while minute < end {
        let offset = minutes_at(rule, minute)?;
        if offset != last {
            changes
                .push((minute as i64, offset))
                .map_err(AllocError::from)?;
            last = offset;
        }
        minute = rule.stretch_end(minute).min(end);
    }
    Ok(changes)
}
