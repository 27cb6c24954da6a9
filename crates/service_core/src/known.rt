//! Whether settings know the names in rows of the tables.
ghost use Rattle.std.specs.Prelude.{◌≡◌, map};
ghost use Rattle.std.specs.List.{list_all};
ghost use Rattle.settings_core.specs.Settings.{knows, lifecycle_named};
ghost use Rattle.desk_model.specs.Known as known;
ghost use Rattle.desk_model.specs.Lifecycles as lifecycles;
ghost use Rattle.store_tables.specs.Contents.Request.{row_of};
ghost use Rattle.report_core.specs.Rows.{QueuesRise};
ghost use Rattle.service_core.specs.Attaching as attaching;

use desk_core::{QueueRow, RequestRow, Watcher};
use hours_core::Minute;
use report_core::queue_named;
use settings_core::Settings;
use text_core::Text;

/// Whether the settings know each name in these rows of queues, in the order of their names,
/// requests and watchers.
#[tactic(auto, unfolding(crate::specs::Attaching::knows_rows))]
pub(crate) fn knows_rows(
    settings: &Settings,
    queues: &[QueueRow],
    dated: &[(RequestRow, Option<Minute>)],
    watchers: &[Watcher],
) -> bool
    ensures { QueuesRise queues.now → result
        ≡ attaching.knows_rows settings.now queues.now (map row_of dated.now) watchers.now }
{
    knows_queues(settings, queues)
        && knows_requests(settings, queues, dated)
        && knows_watchers(settings, watchers)
}

/// Whether each of these who made entries is a person of the settings.
pub(crate) fn knows_actors(settings: &Settings, actors: &[Text]) -> bool
    ensures { result ≡ list_all (knows settings.now) actors.now }
{
    actors
        .iter()
        .all(|actor| settings.people().knows(actor.as_str()))
}

fn knows_watchers(settings: &Settings, watchers: &[Watcher]) -> bool
    ensures { result ≡ list_all (λ w. knows settings.now w.person) watchers.now }
{
    watchers
        .iter()
        .all(|watcher| settings.people().knows(watcher.person.as_str()))
}

fn knows_queues(settings: &Settings, queues: &[QueueRow]) -> bool
    ensures { result ≡ list_all (known.knows_queue settings.now) queues.now }
{
    queues.iter().all(|queue| knows_queue(settings, queue))
}

/// Whether the lifecycle of a queue is known, and its level.
fn knows_queue(settings: &Settings, queue: &QueueRow) -> bool
    ensures { result ≡ known.knows_queue settings.now queue.now }
{
    settings.lifecycle(queue.lifecycle.as_str()).is_some() && knows_level(settings, &queue.level)
}

fn knows_requests(
    settings: &Settings,
    queues: &[QueueRow],
    dated: &[(RequestRow, Option<Minute>)],
) -> bool
    ensures { QueuesRise queues.now → result
        ≡ list_all (known.knows_row settings.now (attaching.of_queues queues.now))
        (map row_of dated.now) }
{
    dated
        .iter()
        .all(|(request, _)| knows_request(settings, queues, request))
}

/// Whether the status of a request is one of the lifecycle of its queue, and its level and its
/// owner are known.
fn knows_request(settings: &Settings, queues: &[QueueRow], request: &RequestRow) -> bool
    ensures { QueuesRise queues.now → result
        ≡ known.knows_row settings.now (attaching.of_queues queues.now) request.now }
{
    knows_status(settings, queues, request)
        && knows_level(settings, &request.level)
        && knows_owner(settings, &request.owner)
}

/// Whether the queue of a request is among these, and the lifecycle of that queue has the status.
fn knows_status(settings: &Settings, queues: &[QueueRow], request: &RequestRow) -> bool
    ensures { QueuesRise queues.now → result
        ≡ known.knows_status settings.now (attaching.of_queues queues.now) request.now }
{
    match queue_named(queues, &request.queue) {
        Some(queue) => has_status(settings, queue, &request.status),
        None => false,
    }
}

/// Whether the lifecycle of the queue is known and has the status.
fn has_status(settings: &Settings, queue: &QueueRow, status: &Text) -> bool
    ensures { result
        ≡ lifecycles.has_status (lifecycle_named settings.now queue.now.lifecycle) status.now }
{
    match settings.lifecycle(queue.lifecycle.as_str()) {
        Some(lifecycle) => lifecycle.class(status.as_str()).is_some(),
        None => false,
    }
}

/// Whether a level that is given is one of the settings.
fn knows_level(settings: &Settings, level: &Option<Text>) -> bool
    ensures { result ≡ known.knows_level settings.now level.now }
{
    match level {
        Some(level) => settings.level(level.as_str()).is_some(),
        None => true,
    }
}

/// Whether an owner, if there is one, is a person of the settings.
fn knows_owner(settings: &Settings, owner: &Option<Text>) -> bool
    ensures { result ≡ known.knows_owner settings.now owner.now }
{
    match owner {
        Some(owner) => settings.people().knows(owner.as_str()),
        None => true,
    }
}
