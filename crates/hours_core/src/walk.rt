//! The end of a limit: in one pass where the stays begin in order, else from pause to pause.

ghost use Rattle.std.specs.Prelude.{◌≡◌, ◌≤◌, ◌+◌};
ghost use Rattle.hours_core.specs.Calendar.{opens};
ghost use Rattle.hours_core.specs.Counting.{count, has_passed};
ghost use Rattle.hours_core.specs.Least.{IsLeast};
ghost use Rattle.hours_core.specs.Limit as spec;
ghost use Rattle.hours_core.specs.Moment.{end_minute};
ghost use Rattle.hours_core.specs.Pauses.{is_paused};

use crate::calendar::Calendar;
use crate::in_order::begin_in_order;
use crate::level::Limit;
use crate::moment::{END, Minute};
use crate::pauses::ahead_of;
use crate::stay::Stay;
use text_core::Texts;

impl Limit {
    pub(crate) fn minutes(self) -> u32
        ensures { result ≡ spec.minutes_of self }
    {
        match self {
            Limit::RealMinutes(minutes) => minutes,
            Limit::BusinessMinutes(minutes) => minutes,
        }
    }

    /// How many minutes of the limit's kind there are from one to before another.
    pub(crate) fn count_between(self, calendar: &Calendar, a: u32, b: u32) -> u32
        requires { a ≤ b }
        ensures { result ≡ count (spec.kind_of self (opens calendar.now)) a b }
    {
        match self {
            Limit::RealMinutes(_) => b - a,
            Limit::BusinessMinutes(_) => calendar.open_between(a, b),
        }
    }

    /// The first minute before which so many minutes of the limit's kind have passed from this one
    /// on.
    pub(crate) fn end_of_count(self, calendar: &Calendar, m: Minute, minutes: u32) -> Option<Minute>
        ensures { IsLeast (has_passed (spec.kind_of self (opens calendar.now)) m minutes) m
            (end_minute + 1) result }
    {
        match self {
            Limit::RealMinutes(_) => m.after(minutes),
            Limit::BusinessMinutes(_) => calendar.add_open(m, minutes),
        }
    }

    /// The end of the limit, where minutes of the stays in these statuses don't count.
    pub(crate) fn end(
        self,
        calendar: &Calendar,
        begin: Minute,
        ignored: &Texts,
        stays: &[Stay],
    ) -> Option<Minute>
        ensures { result
            ≡ spec.end_of (opens calendar.now) (is_paused ignored.now stays.now) self begin }
    {
        if begin_in_order(stays) {
            self.end_in_order(calendar, begin, ignored, stays)
        } else {
            self.end_by_walk(calendar, begin, ignored, stays)
        }
    }

    /// The same, in a walk over the stays for each pause.
    fn end_by_walk(
        self,
        calendar: &Calendar,
        begin: Minute,
        ignored: &Texts,
        stays: &[Stay],
    ) -> Option<Minute>
        ensures { result
            ≡ spec.end_of (opens calendar.now) (is_paused ignored.now stays.now) self begin }
    {
        let mut place = begin.get();
        let mut left = self.minutes();
        if left == 0 {
            return Some(begin);
        }
        while place < END {
            let ahead = ahead_of(place, ignored, stays);
            if place < ahead.past {
                place = ahead.past;
            } else if ahead.next == END {
                return self.end_of_count(calendar, Minute::at(place), left);
            } else {
                let minutes = self.count_between(calendar, place, ahead.next);
                if left <= minutes {
                    return self.end_of_count(calendar, Minute::at(place), left);
                }
                left -= minutes;
                place = ahead.next;
            }
        }
        None
    }
}
