//! Dates of the calendar.

ghost use Rattle.std.specs.Prelude.{◌≡◌, ◌≤◌, ◌≤ℤ◌, pos};
ghost use Rattle.jiff.specs.Words.{days_in_month, epoch_day, IsBetween};
ghost use Rattle.days.specs.Dates as spec;

use jiff::ToSpan;
use jiff::civil::{Date, date};

/// The date of the calendar with this number of days since 1970-01-01.
pub fn civil_date(day: i64) -> Date
    requires { IsBetween (pos 0) (pos 60000) day }
    ensures number { epoch_day result ≡ day }
    ensures year { pos 0 ≤ℤ result.year }
{
    match date(1970, 1, 1).checked_add(day.days()) {
        Ok(found) => found,
        Err(_) => unreachable!(),
    }
}

/// The year, the month and the day of the day with this number of days since 1970-01-01.
pub fn date_of_day(day: u32) -> (u16, u8, u8)
    requires { day ≤ 60000 }
    ensures counted { result ≡ spec.date_of_day day }
    ensures calendar { spec.IsDateOfDay day result }
{
    let found = civil_date(day as i64);
    (found.year() as u16, found.month() as u8, found.day() as u8)
}

/// Whether the calendar has the day, in the years 2000 to 2099.
pub fn is_date(year: u32, month: u32, day: u32) -> bool
    ensures { result ≡ spec.is_date year month day }
{
    2000 <= year
        && year <= 2099
        && 1 <= month
        && month <= 12
        && 1 <= day
        && day <= last_day(year, month)
}

/// How many days the month has.
fn last_day(year: u32, month: u32) -> u32
    requires year { (2000 ≤ year) × (year ≤ 2099) }
    requires month { (1 ≤ month) × (month ≤ 12) }
    ensures { result ≡ days_in_month (pos year) month }
{
    date(year as i16, month as i8, 1).days_in_month() as u32
}
