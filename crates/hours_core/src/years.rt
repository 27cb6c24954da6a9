//! The years of a calendar, and the minutes that may belong to them.

ghost use Rattle.std.specs.Prelude.{◌≡◌, true};
ghost use Rattle.hours_core.specs.Hours as spec;
ghost use Rattle.hours_core.specs.Rules as rules;

use crate::moment::{END, START};
use crate::week::DAY;
use days::first_day;

/// Whether both are years from 2000 to 2099, and the first is not after the last.
pub(crate) fn are_years(years: (i64, i64)) -> bool
    ensures { result ≡ spec.are_years years }
{
    is_year(years.0) && is_year(years.1) && years.0 <= years.1
}

fn is_year(year: i64) -> bool
    ensures { result ≡ spec.is_year year }
{
    2000 <= year && year <= 2099
}

/// The first minute of the day before the years, and no minute before the first moment.
pub(crate) fn first_asked(years: (i64, i64)) -> u32
    requires { spec.are_years years ≡ true }
    ensures { result ≡ rules.first_asked years }
{
    START.max((first_day(years.0) - 1) * DAY)
}

/// The end of the day after the years, and no minute from the end of all moments on.
pub(crate) fn end_asked(years: (i64, i64)) -> u32
    requires { spec.are_years years ≡ true }
    ensures { result ≡ rules.end_asked years }
{
    END.min((first_day(years.1 + 1) + 1) * DAY)
}
