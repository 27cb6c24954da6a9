//! What the lifecycle of a queue says of a status and of a move. Where there is no lifecycle, it
//! has no status and no move, and the text is empty.
ghost use Rattle.std.specs.Prelude.{◌≡◌, true};
ghost use Rattle.std.specs.Option.{option_map};
ghost use Rattle.text_core.specs.Form.{is_right_name};
ghost use Rattle.desk_model.specs.Commands.Reply as reply;
ghost use Rattle.desk_model.specs.Lifecycles as lifecycles;

use crate::rows::QueueRow;
use lifecycle_core::{Class, Lifecycle};
use settings_core::Settings;
use text_core::Text;

/// The lifecycle of a queue, if the queue is there and the settings know its lifecycle.
pub fn lifecycle_of<'s>(settings: &'s Settings, queue: &Option<QueueRow>) -> Option<&'s Lifecycle>
    ensures { option_map (λ l. l.now) result ≡ lifecycles.lifecycle_of settings.now queue.now }
{
    match queue {
        Some(queue) => settings.lifecycle(queue.lifecycle.as_str()),
        None => None,
    }
}

/// Whether the status is one of the lifecycle's.
pub fn has_status(lifecycle: Option<&Lifecycle>, status: &str) -> bool
    ensures { result ≡ lifecycles.has_status (option_map (λ l. l.now) lifecycle.entry) status.now }
{
    match lifecycle {
        Some(lifecycle) => lifecycle.class(status).is_some(),
        None => false,
    }
}

/// Whether a status that is given is one of the lifecycle's.
pub fn has_given(lifecycle: Option<&Lifecycle>, given: &Option<Text>) -> bool
    ensures { result ≡ lifecycles.has_given (option_map (λ l. l.now) lifecycle.entry) given.now }
{
    match given {
        Some(status) => has_status(lifecycle, status.as_str()),
        None => true,
    }
}

/// The status of a new request: the one given, or else the lifecycle's status on create.
pub fn first_status<'s>(lifecycle: Option<&'s Lifecycle>, given: &'s Option<Text>) -> &'s str
    ensures { result.now
        ≡ lifecycles.first_status (option_map (λ l. l.now) lifecycle.entry) given.entry.now }
{
    match (given, lifecycle) {
        (Some(status), _) => status.as_str(),
        (None, Some(lifecycle)) => lifecycle.on_create(),
        (None, None) => "",
    }
}

/// Whether a request may be filed in the status.
pub fn is_creatable(lifecycle: Option<&Lifecycle>, status: &str) -> bool
    ensures { result
        ≡ lifecycles.is_creatable (option_map (λ l. l.now) lifecycle.entry) status.now }
{
    match lifecycle {
        Some(lifecycle) => lifecycle.may_create(status),
        None => false,
    }
}

/// Whether a request may move from the one status to the other.
pub fn is_allowed(lifecycle: Option<&Lifecycle>, from: &str, to: &str) -> bool
    ensures { result
        ≡ lifecycles.is_allowed (option_map (λ l. l.now) lifecycle.entry) from.now to.now }
{
    match lifecycle {
        Some(lifecycle) => lifecycle.may_move(from, to),
        None => false,
    }
}

/// The right that a move asks for: a right's name, where the lifecycle has the status.
pub fn right_of<'s>(lifecycle: Option<&'s Lifecycle>, from: &str, to: &str) -> &'s str
    ensures right { result.now
        ≡ lifecycles.right_of (option_map (λ l. l.now) lifecycle.entry) from.now to.now }
    ensures named { lifecycles.has_status (option_map (λ l. l.now) lifecycle.entry) to.now ≡ true
        → is_right_name result.now ≡ true }
{
    match lifecycle {
        Some(lifecycle) => lifecycle.right_for(from, to),
        None => "",
    }
}

/// Whether a move leads from an inactive status to one that isn't.
pub(crate) fn opens_anew(lifecycle: Option<&Lifecycle>, from: &str, to: &str) -> bool
    ensures { result
        ≡ lifecycles.opens_anew (option_map (λ l. l.now) lifecycle.entry) from.now to.now }
{
    is_inactive(lifecycle, from) && !is_inactive(lifecycle, to)
}

/// Whether the status is inactive.
pub fn is_inactive(lifecycle: Option<&Lifecycle>, status: &str) -> bool
    ensures { result ≡ lifecycles.is_inactive (option_map (λ l. l.now) lifecycle.entry) status.now }
{
    match lifecycle {
        Some(lifecycle) => match lifecycle.class(status) {
            Some(Class::Inactive) => true,
            _ => false,
        },
        None => false,
    }
}

/// Whether the status is initial.
fn is_initial(lifecycle: Option<&Lifecycle>, status: &str) -> bool
    ensures { result ≡ lifecycles.is_initial (option_map (λ l. l.now) lifecycle.entry) status.now }
{
    match lifecycle {
        Some(lifecycle) => match lifecycle.class(status) {
            Some(Class::Initial) => true,
            _ => false,
        },
        None => false,
    }
}

/// The status that a reply moves a request to, if it moves it: it moves one out of an inactive
/// status, and out of an initial one where the caller isn't a requestor.
pub fn reply_target<'s>(
    lifecycle: Option<&'s Lifecycle>,
    is_requestor: bool,
    status: &str,
) -> Option<&'s str>
    ensures { option_map (λ s. s.now) result
        ≡ reply.reply_target (option_map (λ l. l.now) lifecycle.entry) is_requestor status.now }
{
    if is_inactive(lifecycle, status) || (is_initial(lifecycle, status) && !is_requestor) {
        reopening_of(lifecycle, status)
    } else {
        None
    }
}

/// The status to which a request is opened again.
fn reopening_of<'s>(lifecycle: Option<&'s Lifecycle>, from: &str) -> Option<&'s str>
    ensures { option_map (λ s. s.now) result
        ≡ lifecycles.reopening_of (option_map (λ l. l.now) lifecycle.entry) from.now }
{
    match lifecycle {
        Some(lifecycle) => lifecycle.reopen_to(from),
        None => None,
    }
}
