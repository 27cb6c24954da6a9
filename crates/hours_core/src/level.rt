//! Levels of service: how soon a request is to be answered and resolved.

ghost use Rattle.std.specs.Prelude.{◌≡◌};
ghost use Rattle.hours_core.specs.Calendar.{opens};
ghost use Rattle.hours_core.specs.Limit as spec;
ghost use Rattle.hours_core.specs.Pauses.{IgnoresNone};

use crate::calendar::Calendar;
use crate::moment::Minute;
use crate::stay::Stay;
use text_core::{Text, Texts};

/// How long something may take, in minutes.
#[derive(Clone, Copy)]
pub enum Limit {
    /// In minutes of any kind.
    RealMinutes(u32),
    /// In open minutes.
    BusinessMinutes(u32),
}

/// How soon a request is to be answered and resolved, by the hours of a calendar.
#[derive(Drop)]
pub struct Level {
    /// The calendar's name.
    pub calendar: Text,
    /// Whether the time begins with the event, also where nothing is open then.
    pub start_immediately: bool,
    /// From a message of the requestor to the desk's answer.
    pub response: Option<Limit>,
    /// From the desk's last message to its next one, while the requestor is silent.
    pub keep_in_loop: Option<Limit>,
    /// From the request's opening to its end.
    pub resolve: Option<Limit>,
    /// The statuses in which no minute counts.
    pub ignore: Texts,
}

impl Level {
    /// When a limit on what follows the minute `from` is due by the calendar's hours, or `None`
    /// where that isn't before or at `END`. The time begins with `from` or, unless the level starts
    /// immediately, with the first open minute from there on. Minutes of the stays in a status that
    /// the level ignores don't count; the stays stand in any order, and may overlap.
    pub fn limit_due(
        &self,
        calendar: &Calendar,
        from: Minute,
        limit: Limit,
        stays: &[Stay],
    ) -> Option<Minute>
        ensures due { result
            ≡ spec.limit_due (opens calendar.now) self.now stays.now from limit }
        ensures plain { IgnoresNone self.now.ignore stays.now → result
            ≡ spec.plain_due (opens calendar.now) self.now.start_immediately from limit }
    {
        let begin = self.begin(calendar, from)?;
        limit.end(calendar, begin, &self.ignore, stays)
    }

    /// When the time begins.
    fn begin(&self, calendar: &Calendar, from: Minute) -> Option<Minute>
        ensures { result ≡ spec.begin_of (opens calendar.now) self.now.start_immediately from }
    {
        if self.start_immediately {
            Some(from)
        } else {
            calendar.first_open(from)
        }
    }
}
