//! When a request is due.

ghost use Rattle.std.specs.Prelude.{◌≡◌, option_and_then};
ghost use Rattle.std.specs.Option.{option_map};
ghost use Rattle.hours_core.specs.Calendar.{opens};
ghost use Rattle.lifecycle_core.specs.Lifecycle.{class_of};
ghost use Rattle.settings_core.specs.Settings.{level_named};
ghost use Rattle.desk_model.specs.Due as due;

use crate::rows::{QueueRow, RequestRow, Turn};
use hours_core::{Calendar, Level, Limit, Minute, Stay};
use lifecycle_core::{Class, Lifecycle};
use settings_core::Settings;
use text_core::Text;

/// When a request of this queue is due: the least moment among the limits of its level that count.
/// These are the limit to resolve it, since it was opened, and the limit of the turn, since the
/// turn began: to respond, where it is the desk's, and to keep the requestor in the loop, where it
/// is the requestor's. Minutes of the request's stays in a status that the level ignores don't
/// count; the stays stand in any order, and may overlap.
///
/// None where its status is inactive, where it has no level, where no limit that counts is over by
/// 2100-01-01 00:00, and where the settings lack the queue's lifecycle, the status, the level or
/// its calendar.
pub fn due_of(
    settings: &Settings,
    queue: &QueueRow,
    request: &RequestRow,
    stays: &[Stay],
) -> Option<Minute>
    ensures { result ≡ due.due_of settings.now queue.now stays.now request.now }
{
    match settings.lifecycle(queue.lifecycle.as_str()) {
        Some(lifecycle) if is_live(lifecycle, &request.status) => {
            let level = level_of(settings, &request.level)?;
            due_at_level(settings, level, request, stays)
        }
        _ => None,
    }
}

/// Whether the status is one of the lifecycle's, and not an inactive one.
pub fn is_live(lifecycle: &Lifecycle, status: &Text) -> bool
    ensures { result ≡ due.is_live_class (class_of lifecycle.now status.now) }
{
    match lifecycle.class(status.as_str()) {
        Some(Class::Initial) => true,
        Some(Class::Active) => true,
        _ => false,
    }
}

/// When a request with a live status is due by this level.
fn due_at_level(
    settings: &Settings,
    level: &Level,
    request: &RequestRow,
    stays: &[Stay],
) -> Option<Minute>
    ensures { result
        ≡ due.due_at_level (due.rule_of stays.now) settings.now request.now level.now }
{
    let calendar = settings.calendar(level.calendar.as_str())?;
    least_due(calendar, level, request, stays)
}

/// The level of this name, if one is given and known.
fn level_of<'s>(settings: &'s Settings, name: &Option<Text>) -> Option<&'s Level>
    ensures { option_map (λ l. l.now) result ≡ option_and_then (level_named settings.now) name.now }
{
    match name {
        Some(name) => settings.level(name.as_str()),
        None => None,
    }
}

/// The least of the limits that count by this calendar.
fn least_due(
    calendar: &Calendar,
    level: &Level,
    request: &RequestRow,
    stays: &[Stay],
) -> Option<Minute>
    ensures { result
        ≡ due.least_due (due.rule_of stays.now) (opens calendar.now) level.now request.now }
{
    let on_turn = match request.turn {
        Turn::Desk => level.response,
        Turn::Requestor => level.keep_in_loop,
    };
    sooner(
        due_of_limit(calendar, level, request.opened, level.resolve, stays),
        due_of_limit(calendar, level, request.since, on_turn, stays),
    )
}

/// When a limit from this moment on is due, if the level has it.
fn due_of_limit(
    calendar: &Calendar,
    level: &Level,
    from: Minute,
    limit: Option<Limit>,
    stays: &[Stay],
) -> Option<Minute>
    ensures { result
        ≡ due.due_of_limit (due.rule_of stays.now) (opens calendar.now) level.now from limit }
{
    match limit {
        Some(limit) => level.limit_due(calendar, from, limit, stays),
        None => None,
    }
}

/// The sooner of two moments, where there are any.
fn sooner(a: Option<Minute>, b: Option<Minute>) -> Option<Minute>
    ensures { result ≡ due.sooner a b }
{
    match (a, b) {
        (Some(a), Some(b)) => Some(if a <= b { a } else { b }),
        (Some(a), None) => Some(a),
        (None, b) => b,
    }
}
