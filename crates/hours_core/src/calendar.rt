//! Calendars: opening hours, kept as runs of open minutes.

ghost use Rattle.std.specs.Prelude.{◌≡◌, ◌≢◌, None, Some, IfOk, OnOk, IfErr};
ghost use Rattle.hours_core.specs.Calendar.{KeepsHours};
ghost use Rattle.hours_core.specs.Hours as spec;

use crate::fault::HoursFault;
use crate::schedule::Schedule;
use crate::spans::Spans;
use crate::week::{Intervals, is_week};
use crate::years::are_years;
use crate::zone::Zone;
use std::alloc::Global;

/// Opening hours: the spans of open minutes.
#[derive(Drop)]
pub struct Calendar {
    pub(crate) spans: Spans,
}

impl Calendar {
    /// A calendar that is open in the intervals of each day of the week, from Sunday on, in the
    /// zone's time, from the first to the last year, but not on holidays. These are days since
    /// 1970-01-01 in local time, in any order.
    ///
    /// Refused are intervals that are empty, out of order, past the day's end or more than four a
    /// day (`BadInterval`), and years that are not from 2000 to 2099 or of which the first is after
    /// the last (`BadYears`), in this order. `NoMemory` comes only in place of a calendar, where
    /// memory for its spans is refused, never of a fault.
    pub fn build(
        alloc: Global,
        zone: Zone,
        week: &[Intervals; 7],
        holidays: &[u32],
        years: (i64, i64),
    ) -> Result<Calendar, HoursFault>
        ensures valid { OnOk result (spec.calendar_fault week.now years ≡ None) }
        ensures hours { IfOk result
            (KeepsHours (spec.hours_of zone week.now holidays.now years)) }
        ensures err { IfErr result
            (λ e. e ≢ HoursFault.NoMemory → spec.calendar_fault week.now years ≡ Some e) }
        ensures memory { IfErr result
            (λ e. e ≡ HoursFault.NoMemory → spec.calendar_fault week.now years ≡ None) }
    {
        if !is_week(week) {
            return Err(HoursFault::BadInterval);
        }
        if !are_years(years) {
            return Err(HoursFault::BadYears);
        }
        let schedule = Schedule::new(alloc, zone, week, holidays, years)?;
        let spans = schedule.spans(alloc)?;
        Ok(Calendar { spans })
    }
}
