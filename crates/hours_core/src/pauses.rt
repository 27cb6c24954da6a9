//! Where the minutes of stays in an ignored status begin and end.

ghost use Rattle.std.specs.Prelude.{◌≡◌, ◌<◌, ◌≤◌};
ghost use Rattle.hours_core.specs.Least.{NoneHolds, AllHold};
ghost use Rattle.hours_core.specs.Moment.{end_minute};
ghost use Rattle.hours_core.specs.Pauses as spec;

use crate::moment::END;
use crate::stay::Stay;
use text_core::Texts;

/// What lies ahead of a minute.
#[derive(Clone, Copy)]
pub struct Ahead {
    /// Up to where each minute is paused: the minute itself, where it isn't.
    pub past: u32,
    /// Up to where none is, where the minute itself isn't.
    pub next: u32,
}

/// What lies ahead of the minute, where the stays in these statuses are ignored.
pub fn ahead_of(m: u32, ignored: &Texts, stays: &[Stay]) -> Ahead
    requires { m ≤ end_minute }
    ensures paused { AllHold (spec.is_paused ignored.now stays.now) m result.past }
    ensures clear { result.past ≡ m
        → NoneHolds (spec.is_paused ignored.now stays.now) m result.next }
    ensures past { m ≤ result.past × result.past ≤ end_minute }
    ensures next { (m < end_minute → m < result.next) × result.next ≤ end_minute }
{
    let mut past = m;
    let mut next = END;
    for stay in stays {
        let from = stay.from.get();
        let end = stay.end();
        if from <= past {
            if past < end && ignored.contains(stay.status.as_str()) {
                past = end;
            }
        } else if from < next && ignored.contains(stay.status.as_str()) {
            next = from;
        }
    }
    Ahead { past, next }
}
