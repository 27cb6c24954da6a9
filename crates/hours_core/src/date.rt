//! The date and the text of a minute.

ghost use Rattle.std.specs.Prelude.{◌≡◌, ◌/◌, ◌≤◌};
ghost use Rattle.hours_core.specs.Date as spec;
ghost use Rattle.hours_core.specs.Date.{date_of_minute, digit_of, text_of_minute, IsDateOfDay};

use crate::moment::Minute;
use crate::week::DAY;
use days::date_of_day;

/// The year, the month and the day of the minute, in UTC.
pub fn date_of(m: Minute) -> (u16, u8, u8)
    ensures counted { result ≡ date_of_minute m }
    ensures calendar { IsDateOfDay (m / 1440) result }
{
    date_of_day(m.get() / DAY)
}

/// The year of the day with this number of days since 1970-01-01.
pub(crate) fn year_of_day(day: u32) -> u16
    requires { day ≤ 60000 }
    ensures { result ≡ (spec.date_of_day day).0 }
{
    let (year, _, _) = date_of_day(day);
    year
}

/// The minute as `YYYY-MM-DD HH:MM`, in UTC.
pub fn minute_text(m: Minute) -> [u8; 16]
    ensures { result ≡ text_of_minute m }
{
    let (year, month, day) = date_of(m);
    let hour = m.get() % DAY / 60;
    let minute = m.get() % 60;
    [
        digit((year / 1000) as u32),
        digit((year / 100) as u32),
        digit((year / 10) as u32),
        digit(year as u32),
        b'-',
        digit((month / 10) as u32),
        digit(month as u32),
        b'-',
        digit((day / 10) as u32),
        digit(day as u32),
        b' ',
        digit(hour / 10),
        digit(hour),
        b':',
        digit(minute / 10),
        digit(minute),
    ]
}

/// The last decimal digit, as a character.
fn digit(n: u32) -> u8
    ensures { result ≡ digit_of n }
{
    b'0' + (n % 10) as u8
}
