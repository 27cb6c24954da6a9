//! The numbers of days.

ghost use Rattle.std.specs.Prelude.{◌≡◌, ◌<◌, ◌≤◌, ◌*◌, ◌<ℤ◌, ◌≤ℤ◌, ℕ, pos, unsigned_abs};
ghost use Rattle.jiff.specs.Words.{epoch_day};
ghost use Rattle.days.specs.Dates as spec;

use crate::dates::is_date;
use jiff::civil::{Date, date};

/// The number of the year's 1 January.
///
/// The days before it are of earlier years, and those from it on of this year or later ones.
pub fn first_day(year: i64) -> u32
    requires { (pos 2000 ≤ℤ year) × (year ≤ℤ pos 2100) }
    ensures number { result ≡ spec.first_day_of year }
    ensures range { (10957 ≤ result) × (result ≤ 47482) }
    ensures before { (day : ℕ) → day < result → pos (spec.date_of_day day).0 <ℤ year }
    ensures after { (day : ℕ) → result ≤ day → day ≤ 60000
        → year ≤ℤ pos (spec.date_of_day day).0 }
{
    days_since_first(date(year as i16, 1, 1))
}

/// The number of a day, where 1970-01-01 is day 0; 0 where the calendar has no such day in the
/// years 2000 to 2099.
pub fn day_number(year: u32, month: u32, day: u32) -> u32
    ensures { result ≡ spec.day_number year month day }
{
    if is_date(year, month, day) {
        days_since_first(date(year as i16, month as i8, day as i8))
    } else {
        0
    }
}

fn days_since_first(day: Date) -> u32
    requires { pos 2000 ≤ℤ day.year }
    ensures { result ≡ unsigned_abs (epoch_day day) }
{
    (hours_since_first(day) as u64 / 24) as u32
}

fn hours_since_first(day: Date) -> i64
    requires { pos 2000 ≤ℤ day.year }
    ensures hours { result ≡ pos (unsigned_abs (epoch_day day) * 24) }
    ensures small { unsigned_abs (epoch_day day) ≤ 2932896 }
{
    day.duration_since(date(1970, 1, 1)).as_hours()
}
