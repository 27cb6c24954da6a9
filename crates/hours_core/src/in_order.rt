//! The end of a limit in one pass over the stays, where they begin in order.

ghost use Rattle.std.specs.Prelude.{◌≡◌, true};
ghost use Rattle.hours_core.specs.Calendar.{opens};
ghost use Rattle.hours_core.specs.Limit as spec;
ghost use Rattle.hours_core.specs.Pauses.{are_in_order, is_paused};

use crate::calendar::Calendar;
use crate::level::Limit;
use crate::moment::Minute;
use crate::stay::Stay;
use text_core::Texts;

/// Whether no stay begins before the one before it.
pub fn begin_in_order(stays: &[Stay]) -> bool
    ensures { result ≡ are_in_order 0 stays.now }
{
    let mut earliest = 0;
    for stay in stays {
        let from = stay.from.get();
        if from < earliest {
            return false;
        }
        earliest = from;
    }
    true
}

impl Limit {
    /// The end of the limit, where minutes of the stays in these statuses don't count. A pause ends
    /// with the last of the stays that overlap.
    pub(crate) fn end_in_order(
        self,
        calendar: &Calendar,
        begin: Minute,
        ignored: &Texts,
        stays: &[Stay],
    ) -> Option<Minute>
        requires { are_in_order 0 stays.now ≡ true }
        ensures { result
            ≡ spec.end_of (opens calendar.now) (is_paused ignored.now stays.now) self begin }
    {
        let mut place = begin.get();
        let mut left = self.minutes();
        if left == 0 {
            return Some(begin);
        }
        for stay in stays {
            if ignored.contains(stay.status.as_str()) {
                let from = place.max(stay.from.get());
                let minutes = self.count_between(calendar, place, from);
                if left <= minutes {
                    return self.end_of_count(calendar, Minute::at(place), left);
                }
                left -= minutes;
                place = from.max(stay.end());
            }
        }
        self.end_of_count(calendar, Minute::at(place), left)
    }
}
