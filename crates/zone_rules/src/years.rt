//! The years of days.

ghost use Rattle.std.specs.Prelude.{◌≡◌, ◌<◌, ◌≤◌, ℕ, pos};
ghost use Rattle.jiff_tz.specs.Year.{year_of_day};

use days::civil_date;

/// The number of the first day of the year after that of the day.
pub(crate) fn next_year(day: u32) -> u32
    requires { day ≤ 60000 }
    ensures later { day < result }
    ensures small { result ≤ 70000 }
    ensures same { (other : ℕ) → day ≤ other → other < result
        → year_of_day (pos other) ≡ year_of_day (pos day) }
{
    let date = civil_date(day as i64);
    day + (date.days_in_year() - date.day_of_year()) as u32 + 1
}
