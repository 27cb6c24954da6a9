//! Opening hours as settings state them, and the runs of open minutes that follow from them.

ghost use Rattle.std.specs.Prelude.{◌≡◌, ◌<◌, ◌≤◌, ◌+◌, ◌-◌, ◌&&◌, ◌||◌, ℕ};
ghost use Rattle.std.specs.Prelude.{true, pos, neg_ℤ, ◌+ℤ◌, ◌≤ℤ◌, IfOk, OnOk};
ghost use Rattle.std.specs.List.{list_all, list_any};
ghost use Rattle.hours_core.specs.Date.{date_of_day};
ghost use Rattle.hours_core.specs.Hours as spec;
ghost use Rattle.hours_core.specs.Moment.{first_minute, end_minute};
ghost use Rattle.hours_core.specs.Runs.{AreRuns};
ghost use Rattle.hours_core.specs.Schedule.{HoldBefore};
ghost use Rattle.hours_core.specs.Spans.{is_held, last_end};
ghost use Rattle.hours_core.specs.Zone.{offset_at};

use crate::date::year_of_day;
use crate::holidays::Holidays;
use crate::spans::Spans;
use crate::week::{DAY, Intervals, intervals_of};
use crate::zone::Zone;
use std::alloc::{AllocError, Global};
use std::marker::Model;

/// Opening hours as they are given: in a zone's time by days of the week, from the first to the
/// last year, but not on holidays.
#[derive(Drop)]
pub struct Schedule<'a> {
    zone: Zone,
    week: &'a [Intervals],
    holidays: Holidays,
    years: (i64, i64),
}

impl<'a> Model for Schedule<'a> {
    ghost use Rattle.std.specs.Prelude.{◌≡◌, true};
    ghost use Rattle.std.specs.List.{list_all};
    ghost use Rattle.hours_core.specs.Hours.{Hours, are_years, is_day};

    ghost Value = { Hours };

    ghost view = { λ s.
        record { zone = s.zone; week = s.week.now; holidays = s.holidays; years = s.years } };

    ghost invariant = { λ s. (list_all is_day s.week.now ≡ true)
        × (are_years s.years ≡ true) };
}

impl<'a> Schedule<'a> {
    /// The schedule of these parts.
    pub fn new(
        alloc: Global,
        zone: Zone,
        week: &'a [Intervals],
        holidays: &[u32],
        years: (i64, i64),
    ) -> Result<Schedule<'a>, AllocError>
        requires week { list_all spec.is_day week.now ≡ true }
        requires years { spec.are_years years ≡ true }
        ensures { IfOk result (λ s. (m : ℕ) → spec.is_open s m ≡ spec.is_open
            (record { zone = zone; week = week.now; holidays = holidays.now; years = years }) m) }
    {
        let holidays = Holidays::new(alloc, holidays)?;
        Ok(Schedule {
            zone,
            week,
            holidays,
            years,
        })
    }

    /// The runs of open minutes, found by changes of the zone, days of the years and intervals.
    pub fn spans(&self, alloc: Global) -> Result<Spans, AllocError>
        ensures { IfOk result (AreRuns (spec.is_open self.now)) }
    {
        let mut spans = Spans::new(alloc);
        let (mut from, end) = self.zone.minutes_around(self.years);
        while from < end {
            let to = self.zone.steady_until(from).min(end);
            self.add_steady(&mut spans, from, to)?;
            from = to;
        }
        spans.shrink();
        Ok(spans)
    }

    /// Adds the open minutes from `from` to before `to`, between which the offset stays.
    fn add_steady(&self, spans: &mut Spans, from: u32, to: u32) -> Result<(), AllocError>
        requires moments { (first_minute ≤ from) × (from ≤ to) × (to ≤ end_minute) }
        requires steady { (m : ℕ) → from ≤ m → m < to
            → offset_at self.now.zone.first self.now.zone.changes m
            ≡ offset_at self.now.zone.first self.now.zone.changes from }
        requires before { HoldBefore self.now from spans.old }
        ensures { OnOk result (HoldBefore self.now to spans.new) }
    {
        let offset = self.zone.ahead_at(from);
        let mut point = from;
        while point < to {
            let local = shifted(point, offset);
            let midnight = point - local % DAY;
            let next = to.min(midnight + DAY);
            add_day(spans, self.intervals_on(local / DAY), midnight, point, next)?;
            point = next;
        }
        Ok(())
    }

    /// The intervals of a local day: none on a holiday and outside of the years.
    fn intervals_on(&self, day: u32) -> &[(u16, u16)]
        requires { day ≤ 60000 }
        ensures open { (minute : ℕ)
            → list_any (spec.is_within minute) result.now ≡ spec.is_open_on self.now day minute }
        ensures intervals { spec.are_intervals 0 result.now ≡ true }
    {
        if self.holidays.has(day) || !is_between(self.years, day) {
            &[]
        } else {
            intervals_of(self.week, day)
        }
    }
}

/// The minute with the offset added.
pub(crate) fn shifted(m: u32, offset: i64) -> u32
    requires { (first_minute ≤ m) × (m ≤ end_minute)
        × (neg_ℤ (pos 1439) ≤ℤ offset) × (offset ≤ℤ pos 1439) }
    ensures { pos result ≡ pos m +ℤ offset }
{
    (m as i64 + offset) as u32
}

/// Whether the day is in one of the years.
fn is_between(years: (i64, i64), day: u32) -> bool
    requires { day ≤ 60000 }
    ensures { result ≡ spec.is_between years (date_of_day day).0 }
{
    let year = year_of_day(day) as i64;
    years.0 <= year && year <= years.1
}

/// Adds the minutes of a local day's intervals that lie from `from` to before `to`. The day begins
/// at `midnight`.
fn add_day(
    spans: &mut Spans,
    intervals: &[(u16, u16)],
    midnight: u32,
    from: u32,
    to: u32,
) -> Result<(), AllocError>
    requires intervals { spec.are_intervals 0 intervals.now ≡ true }
    requires moments { (first_minute ≤ from) × (midnight ≤ from) × (from ≤ to) × (to ≤ end_minute) }
    requires after { last_end first_minute spans.old ≤ from }
    ensures held { OnOk result ((m : ℕ) → is_held spans.new m
        ≡ (is_held spans.old m
        || (spec.is_within m (from, to)
        && list_any (spec.is_within (m - midnight)) intervals.now))) }
    ensures end { OnOk result (last_end first_minute spans.new ≤ to) }
{
    for interval in intervals {
        let start = from.max(midnight + interval.0 as u32);
        let end = to.min(midnight + interval.1 as u32);
        if start < end {
            spans.append(start, end)?;
        }
    }
    Ok(())
}
