//! The offset of local time, and when it changes.

ghost use Rattle.std.specs.Prelude.{◌≡◌, ◌≢◌, ◌⊎◌, ◌<◌, ◌≤◌, ◌+◌, ◌/◌, ℕ, ℤ, true, false, ◌&&◌};
ghost use Rattle.std.specs.Prelude.{length, pos, ◌+ℤ◌, ◌≤ℤ◌, neg_ℤ, IsOk, IfOk, IfErr};
ghost use Rattle.std.specs.List.{list_all};
ghost use Rattle.hours_core.specs.Date.{date_of_day};
ghost use Rattle.hours_core.specs.Hours as hours;
ghost use Rattle.hours_core.specs.Moment.{first_minute, end_minute};
ghost use Rattle.hours_core.specs.Zone as spec;

use crate::fault::HoursFault;
use crate::moment::{END, Minute};
use crate::schedule::shifted;
use crate::years::{end_asked, first_asked};
use std::alloc::{AllocError, Global};
use std::marker::Model;

/// The most changes of a zone.
pub(crate) const MAX_CHANGES: usize = 400;

/// The offset of local time, which contracts see as its first value and its changes.
#[derive(Drop)]
pub struct Zone {
    first: i64,
    changes: Vec<(i64, i64)>,
}

impl Model for Zone {
    ghost use Rattle.std.specs.Prelude.{◌≡◌, ◌&&◌, true};
    ghost use Rattle.std.specs.List.{list_all};
    ghost use Rattle.hours_core.specs.Zone.{Offsets, is_offset};

    ghost Value = { Offsets };

    ghost view = { λ z. record { first = z.first; changes = z.changes.items } };

    ghost invariant = { λ z.
        (is_offset z.first && list_all (λ change. is_offset change.1) z.changes.items) ≡ true };
}

impl Zone {
    /// A zone whose local time is that many minutes before or after UTC up to the first change. A
    /// change is a minute, and the offset from there on.
    ///
    /// Refused are an offset of a day or more (`BadOffset`), a change outside of 0 to `END` or not
    /// after the one before (`ChangesOutOfOrder`), and more than 400 changes (`TooManyChanges`), in
    /// this order. `NoMemory` comes only in place of a zone, where memory for its changes is
    /// refused, never of a fault.
    pub fn build(alloc: Global, first: i64, changes: &[(i64, i64)]) -> Result<Zone, HoursFault>
        ensures ok { IfOk result (λ z. spec.zone_of first changes.now ≡ Ok z) }
        ensures err { IfErr result
            (λ e. e ≢ HoursFault.NoMemory → spec.zone_of first changes.now ≡ Err e) }
        ensures memory { IfErr result
            (λ e. e ≡ HoursFault.NoMemory → IsOk (spec.zone_of first changes.now)) }
        ensures offsets { IfOk result (λ z. (m : ℕ)
            → spec.IsOffsetAt first changes.now m (spec.offset_at z.first z.changes m)) }
    {
        if !(is_offset(first) && have_offsets(changes)) {
            return Err(HoursFault::BadOffset);
        }
        if !are_in_order(changes) {
            return Err(HoursFault::ChangesOutOfOrder);
        }
        if changes.len() > MAX_CHANGES {
            return Err(HoursFault::TooManyChanges);
        }
        let changes = Vec::from_slice(alloc, changes)?;
        Ok(Zone { first, changes })
    }

    /// The zone of these parts, where they are known to be a zone's.
    pub(crate) fn of_parts(first: i64, changes: Vec<(i64, i64)>) -> Zone
        requires { (spec.is_offset first
            && list_all (λ change. spec.is_offset change.1) changes.items) ≡ true }
        ensures first { result.first ≡ first }
        ensures changes { result.changes ≡ changes.items }
    {
        Zone { first, changes }
    }

    /// The minutes by which local time is ahead of UTC at the minute, or behind where they are
    /// negative. It takes no memory.
    pub fn offset_at(&self, minute: Minute) -> i32
        ensures value { result ≡ spec.offset_at self.now.first self.now.changes minute }
        ensures last { spec.IsOffsetAt self.now.first self.now.changes minute result }
    {
        self.ahead_at(minute.get()) as i32
    }

    /// The minute that clocks in the zone show at this one, or `None` where that isn't from `START`
    /// to `END`. It takes no memory.
    pub fn local_time(&self, m: Minute) -> Option<Minute>
        ensures { result ≡ spec.local_time self.now m }
    {
        let minute = m.get();
        let offset = self.ahead_at(minute);
        Minute::new(shifted(minute, offset))
    }

    /// A zone of the same offsets.
    pub fn copied(&self, alloc: Global) -> Result<Zone, AllocError>
        ensures { IfOk result (λ z. z ≡ self.now) }
    {
        let changes = Vec::from_slice(alloc, self.changes.as_slice())?;
        Ok(Zone {
            first: self.first,
            changes,
        })
    }

    /// The minutes by which local time is ahead of UTC at the minute.
    pub(crate) fn ahead_at(&self, m: u32) -> i64
        ensures offset { result ≡ spec.offset_at self.now.first self.now.changes m }
        ensures range { (neg_ℤ (pos 1439) ≤ℤ result) × (result ≤ℤ pos 1439) }
    {
        offset_at(self.first, self.changes.as_slice(), m)
    }

    /// A minute up to which the offset of this one stays.
    pub(crate) fn steady_until(&self, m: u32) -> u32
        requires { m < end_minute }
        ensures range { (m < result) × (result ≤ end_minute) }
        ensures steady { (later : ℕ) → m ≤ later → later < result
            → spec.offset_at self.now.first self.now.changes later
            ≡ spec.offset_at self.now.first self.now.changes m }
    {
        next_change(self.changes.as_slice(), m)
    }

    /// The minutes, from the first to before the second, at which the local day may lie in the
    /// years.
    pub(crate) fn minutes_around(&self, years: (i64, i64)) -> (u32, u32)
        requires { hours.are_years years ≡ true }
        ensures range { (first_minute ≤ result.0) × (result.0 ≤ result.1)
            × (result.1 ≤ end_minute) }
        ensures beside { (m : ℕ) → first_minute ≤ m → m < end_minute
            → ((m < result.0) ⊎ (result.1 ≤ m))
            → hours.is_between years (date_of_day (spec.local_minute self.now m / 1440)).0
            ≡ false }
    {
        let _changes = self.changes.as_slice(); // each offset is less than a day
        (first_asked(years), end_asked(years))
    }
}

/// The minute of the first change after this one, or `END`.
fn next_change(changes: &[(i64, i64)], m: u32) -> u32
    requires { m < end_minute }
    ensures range { (m < result) × (result ≤ end_minute) }
    ensures steady { (first : ℤ) (later : ℕ) → m ≤ later → later < result
        → spec.offset_at first changes.now later ≡ spec.offset_at first changes.now m }
{
    let mut next = END;
    for change in changes {
        next = earlier(next, change.0, m);
    }
    next
}

/// The minute of the change where it comes after `m` and before `next`, else `next`.
fn earlier(next: u32, change: i64, m: u32) -> u32
    requires { m < next }
    ensures range { (m < result) × (result ≤ next) }
    ensures settled { (change ≤ℤ pos m) ⊎ (pos result ≤ℤ change) }
{
    if change <= m as i64 || next as i64 <= change {
        next
    } else {
        change as u32
    }
}

/// The offset of the last change at or before the minute, or the first.
fn offset_at(first: i64, changes: &[(i64, i64)], m: u32) -> i64
    requires { (spec.is_offset first
        && list_all (λ change. spec.is_offset change.1) changes.now) ≡ true }
    ensures offset { result ≡ spec.offset_at first changes.now m }
    ensures range { (neg_ℤ (pos 1439) ≤ℤ result) × (result ≤ℤ pos 1439) }
{
    let mut offset = first;
    for change in changes {
        offset = offset_after(offset, *change, m);
    }
    offset
}

/// The change's offset where the change is at or before the minute, else the one that held before.
fn offset_after(offset: i64, change: (i64, i64), m: u32) -> i64
    ensures { result ≡ spec.offset_after offset change m }
{
    if change.0 <= m as i64 {
        change.1
    } else {
        offset
    }
}

/// Whether the offset is less than a day.
pub(crate) fn is_offset(minutes: i64) -> bool
    ensures { result ≡ spec.is_offset minutes }
{
    -1439 <= minutes && minutes <= 1439
}

fn have_offsets(changes: &[(i64, i64)]) -> bool
    ensures { result ≡ list_all (λ change. spec.is_offset change.1) changes.now }
{
    changes.iter().all(|change| is_offset(change.1))
}

/// Whether the changes lie from 0 to `END`, each after the one before.
fn are_in_order(changes: &[(i64, i64)]) -> bool
    ensures { result ≡ spec.are_in_order (pos 0) changes.now }
{
    let mut earliest = 0;
    for change in changes {
        if !(earliest <= change.0 && change.0 <= END as i64) {
            return false;
        }
        earliest = change.0 + 1;
    }
    true
}
