//! The first name in the rows of a desk's tables that settings don't know.

ghost use Rattle.std.specs.Prelude.{◌≡◌, find};
ghost use Rattle.std.specs.Option.{option_map};
ghost use Rattle.std.specs.Str.{bytes_eq};
ghost use Rattle.check_core.specs.Rows as spec;

use desk_model::lifecycles::has_status;
use desk_model::{Entry, QueueRow, RequestRow, WatchRole, Watcher};
use settings_core::Settings;
use text_core::Text;

/// A row of the tables.
#[derive(Clone, Copy)]
pub enum Row<'r> {
    /// The queue of this name.
    Queue(&'r str),
    /// The request of this number.
    Request(u32),
    /// The entry of this number, in the second place, of the request of the first.
    Entry(u32, u32),
}

/// What a name in a row is.
#[derive(Clone, Copy)]
pub enum What {
    Lifecycle,
    Level,
    Status,
    Owner,
    Requestor,
    Cc,
    AdminCc,
    /// Who made an entry.
    Actor,
}

/// A name that settings don't know: where it stands, what it is, and the name.
#[derive(Clone, Copy)]
pub struct Unknown<'r> {
    pub row: Row<'r>,
    pub what: What,
    pub name: &'r str,
}

/// The first queue whose lifecycle or level the settings don't know, or else the first request whose
/// status isn't one of the lifecycle of its queue, among these, or whose level or owner they don't
/// know, and that name.
pub fn unknown_row<'r>(
    settings: &Settings,
    queues: &'r [QueueRow],
    requests: &'r [RequestRow],
) -> Option<Unknown<'r>>
    ensures { option_map spec.seen result
        ≡ spec.unknown_row settings.now queues.now requests.now }
{
    match unknown_queue(settings, queues) {
        Some(unknown) => Some(unknown),
        None => unknown_request(settings, queues, requests),
    }
}

fn unknown_queue<'r>(settings: &Settings, queues: &'r [QueueRow]) -> Option<Unknown<'r>>
    ensures { option_map spec.seen result ≡ spec.unknown_queue settings.now queues.now }
{
    for queue in queues {
        if let Some((what, name)) = unknown_of_queue(settings, queue) {
            let row = Row::Queue(queue.name.as_str());
            return Some(Unknown { row, what, name });
        }
    }
    None
}

/// The lifecycle of a queue, or else its level, where the settings don't know it.
fn unknown_of_queue<'r>(settings: &Settings, queue: &'r QueueRow) -> Option<(What, &'r str)>
    ensures { option_map (λ f. (f.0, f.1.now)) result
        ≡ spec.unknown_of_queue settings.now queue.now }
{
    if settings.lifecycle(queue.lifecycle.as_str()).is_none() {
        return Some((What::Lifecycle, queue.lifecycle.as_str()));
    }
    unknown_level(settings, &queue.level)
}

fn unknown_level<'r>(settings: &Settings, level: &'r Option<Text>) -> Option<(What, &'r str)>
    ensures { option_map (λ f. (f.0, f.1.now)) result ≡ spec.unknown_level settings.now level.now }
{
    match level {
        Some(level) => {
            if settings.level(level.as_str()).is_some() {
                None
            } else {
                Some((What::Level, level.as_str()))
            }
        }
        None => None,
    }
}

fn unknown_request<'r>(
    settings: &Settings,
    queues: &[QueueRow],
    requests: &'r [RequestRow],
) -> Option<Unknown<'r>>
    ensures { option_map spec.seen result
        ≡ spec.unknown_request settings.now queues.now requests.now }
{
    for request in requests {
        if let Some((what, name)) = unknown_of_request(settings, queues, request) {
            let row = Row::Request(request.id);
            return Some(Unknown { row, what, name });
        }
    }
    None
}

/// The status of a request, or else its level, or else its owner, where it isn't known.
fn unknown_of_request<'r>(
    settings: &Settings,
    queues: &[QueueRow],
    request: &'r RequestRow,
) -> Option<(What, &'r str)>
    ensures { option_map (λ f. (f.0, f.1.now)) result
        ≡ spec.unknown_of_request settings.now queues.now request.now }
{
    if !knows_status(settings, queues, request) {
        return Some((What::Status, request.status.as_str()));
    }
    match unknown_level(settings, &request.level) {
        Some(found) => Some(found),
        None => unknown_owner(settings, &request.owner),
    }
}

fn knows_status(settings: &Settings, queues: &[QueueRow], request: &RequestRow) -> bool
    ensures { result ≡ spec.knows_status settings.now queues.now request.now }
{
    match queue_named(queues, &request.queue) {
        Some(queue) => {
            let lifecycle = settings.lifecycle(queue.lifecycle.as_str());
            has_status(lifecycle, request.status.as_str())
        }
        None => false,
    }
}

fn queue_named<'q>(queues: &'q [QueueRow], name: &Text) -> Option<&'q QueueRow>
    ensures { option_map (λ q. q.now) result
        ≡ find (λ q. bytes_eq q.name name.now) queues.now }
{
    queues
        .iter()
        .find(|queue| queue.name.as_str() == name.as_str())
}

fn unknown_owner<'r>(settings: &Settings, owner: &'r Option<Text>) -> Option<(What, &'r str)>
    ensures { option_map (λ f. (f.0, f.1.now)) result ≡ spec.unknown_owner settings.now owner.now }
{
    match owner {
        Some(owner) => {
            if settings.people().knows(owner.as_str()) {
                None
            } else {
                Some((What::Owner, owner.as_str()))
            }
        }
        None => None,
    }
}

/// The first watcher whom the settings don't know.
pub fn unknown_watcher<'r>(settings: &Settings, watchers: &'r [Watcher]) -> Option<Unknown<'r>>
    ensures { option_map spec.seen result ≡ spec.unknown_watcher settings.now watchers.now }
{
    for watcher in watchers {
        if !settings.people().knows(watcher.person.as_str()) {
            return Some(Unknown {
                row: Row::Request(watcher.id),
                what: what_of(watcher.role),
                name: watcher.person.as_str(),
            });
        }
    }
    None
}

fn what_of(role: WatchRole) -> What
    ensures { result ≡ spec.what_of role }
{
    match role {
        WatchRole::Requestor => What::Requestor,
        WatchRole::Cc => What::Cc,
        WatchRole::AdminCc => What::AdminCc,
    }
}

/// The first entry that somebody made whom the settings don't know.
pub fn unknown_entry<'r>(settings: &Settings, entries: &'r [Entry]) -> Option<Unknown<'r>>
    ensures { option_map spec.seen result ≡ spec.unknown_entry settings.now entries.now }
{
    for entry in entries {
        if !settings.people().knows(entry.actor.as_str()) {
            return Some(Unknown {
                row: Row::Entry(entry.id, entry.number),
                what: What::Actor,
                name: entry.actor.as_str(),
            });
        }
    }
    None
}
