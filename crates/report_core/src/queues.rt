//! The queues of requests.
ghost use Rattle.std.specs.Prelude.{◌≡◌};
ghost use Rattle.std.specs.Option.{option_map};
ghost use Rattle.report_core.specs.Rows.{QueuesRise, named_only, queue_among};

use desk_model::QueueRow;
use text_core::Text;

/// The queue of that name, of queues in the order of their names.
pub fn queue_named<'q>(queues: &'q [QueueRow], name: &Text) -> Option<&'q QueueRow>
    ensures { QueuesRise queues.now
        → option_map (λ q. q.now) result ≡ queue_among queues.now name.now }
{
    let index = queues.partition_point(|queue| queue.name.as_str() < name.as_str());
    let rest = &queues[index..];
    named_only(rest.first(), name)
}

/// The queue, if it has that name.
fn named_only<'q>(queue: Option<&'q QueueRow>, name: &Text) -> Option<&'q QueueRow>
    ensures { option_map (λ q. q.now) result
        ≡ named_only name.now (option_map (λ q. q.now) queue.entry) }
{
    match queue {
        Some(queue) if queue.name.as_str() == name.as_str() => Some(queue),
        _ => None,
    }
}
