//! A rule of local time, and its offset at each minute.

ghost use Rattle.std.specs.Prelude.{◌≡◌, ◌<◌, ◌≤◌, ◌*◌, ◌<ℤ◌, ℕ, pos, IfSome};
ghost use Rattle.jiff.specs.Words.{next_at, offset_at as zone_offset, plain_zone, read_whole};
ghost use Rattle.jiff_tz.specs.declared.timezone.TimeZone.{TimeZone as Zone};
ghost use Rattle.zone_rules.specs.Rule.{GoesByJiff, IsBefore, nanos, seconds_at, end_of_rules};

use crate::years::next_year;
use jiff::Timestamp;
use jiff::tz::TimeZone;
use std::marker::Model;

/// The last minute that is asked for, 2100-01-01 00:00.
const LAST: u32 = 68_374_080;

/// A rule of local time, which contracts see as what its text says.
#[derive(Drop)]
pub struct Rule {
    zone: TimeZone<'static>,
}

impl Model for Rule {
    ghost use Rattle.jiff_tz.specs.PosixText.{TzText};
    ghost use Rattle.zone_rules.specs.Rule.{IsRule, text_of};

    ghost Value = { TzText };

    ghost view = { λ r. text_of r.zone.inner };

    ghost invariant = { λ r. IsRule r.zone.inner };
}

impl Rule {
    /// The rule of the text, or `None` where the text is no rule. It takes no memory.
    pub fn read(text: &str) -> Option<Rule>
        ensures value { result ≡ read_whole text.now }
        ensures jiff { IfSome result (GoesByJiff text.now) }
    {
        match TimeZone::posix(text) {
            Ok(zone) => Some(Rule { zone }),
            Err(_) => None,
        }
    }

    /// The seconds by which local time is ahead of UTC at the minute.
    pub fn offset_at(&self, minute: u32) -> i32
        requires { minute ≤ end_of_rules }
        ensures { result ≡ seconds_at self.now (nanos minute) }
    {
        offset_of(&self.zone, minute)
    }

    /// The first minute after this one at which the offset may be another, at most the first
    /// minute of the next year.
    pub fn stretch_end(&self, minute: u32) -> u32
        requires { minute ≤ end_of_rules }
        ensures later { minute < result }
        ensures stays { (m : ℕ) → minute ≤ m → m < result
            → seconds_at self.now (nanos m) ≡ seconds_at self.now (nanos minute) }
    {
        let change = quiet_until(&self.zone, minute);
        let year_end = next_year(minute / 1440) * 1440;
        if change < year_end { change } else { year_end }
    }
}

/// The minute's first second, as an instant.
fn first_second(minute: u32) -> Timestamp
    requires { minute ≤ end_of_rules }
    ensures { result.nanosecond ≡ nanos minute }
{
    match Timestamp::from_second(minute as i64 * 60) {
        Ok(instant) => instant,
        Err(_) => unreachable!(),
    }
}

/// The offset of the zone at the minute's first second, in seconds.
fn offset_of(zone: &TimeZone<'static>, minute: u32) -> i32
    requires { minute ≤ end_of_rules }
    ensures { result ≡ zone_offset (plain_zone zone.now) (nanos minute) }
{
    zone.to_offset(first_second(minute)).seconds()
}

/// A minute up to which no transition comes after this one's first second.
fn quiet_until(zone: &TimeZone<'static>, minute: u32) -> u32
    requires { minute ≤ end_of_rules }
    ensures later { minute < result }
    ensures last { result ≤ 68374081 }
    ensures quiet { (m : ℕ) → minute < m → m < result
        → IsBefore (nanos m) (next_at (plain_zone zone.now) (nanos minute)) }
{
    match zone.following(first_second(minute)).next() {
        Some(found) => minute_from(found.timestamp().as_second(), minute),
        None => LAST + 1,
    }
}

/// The first minute that begins at the second or later, where that is after this minute: a change
/// within a minute counts from the next one.
fn minute_from(second: i64, minute: u32) -> u32
    requires { minute ≤ end_of_rules }
    ensures later { minute < result }
    ensures last { result ≤ 68374081 }
    ensures before { (m : ℕ) → minute < m → m < result → pos (m * 60) <ℤ second }
{
    if second <= minute as i64 * 60 {
        minute + 1
    } else if second > LAST as i64 * 60 {
        LAST + 1
    } else {
        ((second + 59) / 60) as u32
    }
}
