//! The text of a list of queues.

ghost use Rattle.std.specs.Prelude.{◌≡◌, ◌++◌, IfOk, OnOk, string_bytes};
ghost use Rattle.std.specs.List.{flat_map};
ghost use Rattle.desk_texts.specs.Texts.Queues as text;

use crate::texts::shown::name_or;
use desk_model::QueueRow;
use std::alloc::{AllocError, Global};

/// The text of a list of queues: a header, and a line for each with its name, its lifecycle and its
/// level.
pub fn queues_text(alloc: Global, queues: &[QueueRow]) -> Result<String, AllocError>
    ensures { IfOk result (λ t. string_bytes t ≡ text.queues_text queues.now) }
{
    let mut out = String::new(alloc);
    put_line(&mut out, "queue", "lifecycle", "level")?;
    put_queues(&mut out, queues)?;
    Ok(out)
}

fn put_queues(out: &mut String, queues: &[QueueRow]) -> Result<(), AllocError>
    ensures { OnOk result (string_bytes out.new
        ≡ string_bytes out.old ++ flat_map text.line_of_queue queues.now) }
{
    for queue in queues {
        let level = name_or(&queue.level, "-");
        put_line(out, queue.name.as_str(), queue.lifecycle.as_str(), level)?;
    }
    Ok(())
}

fn put_line(out: &mut String, queue: &str, lifecycle: &str, level: &str) -> Result<(), AllocError>
    ensures { OnOk result (string_bytes out.new
        ≡ string_bytes out.old ++ text.queue_line queue.now lifecycle.now level.now) }
{
    write!(out, "{queue:<20} {lifecycle:<20} {level}\n")
}
