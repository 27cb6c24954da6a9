//! The queues that a caller may see.
ghost use Rattle.std.specs.Prelude.{◌≡◌, ℕ, IfErr, IfOk, filter};
ghost use Rattle.std.specs.Option.{option_to_list};
ghost use Rattle.desk_model.specs.Desk.{queue_at};
ghost use Rattle.desk_model.specs.Rights as rights;
ghost use Rattle.desk_model.specs.declared.command.Command.TheVariants as commands;
ghost use Rattle.desk_model.specs.declared.facts.Facts.{Facts};
ghost use Rattle.store_tables.specs.Calls.{LeavesTables, Tells};
ghost use Rattle.store_core.specs.Seen.{state_of};
ghost use Rattle.service_core.specs.Decided.{Answers};
ghost use Rattle.service_core.specs.TableSteps.{ask_by};

use crate::sight::{QueueVisibility, visible_queues};
use desk_core::{Answer, QueueRow, Refusal, sees_queue};
use settings_core::Settings;
use std::alloc::{AllocError, Global};
use store_core::{Backend, Store};
use text_core::{Sequence, Text};

/// The queues that the caller may see. `Unavailable` where memory or the store refused. The tables
/// stay as they are.
///
/// For a caller who may see one queue alone that one is read, by its name: to read all queues and
/// to ask the caller's rights on each takes longer with each queue of the desk.
pub(crate) fn queues<S: Backend>(
    alloc: Global,
    store: &mut Store<S>,
    settings: &Settings,
    caller: &str,
) -> Result<Answer, Refusal>
    ensures told { (at : ℕ) (facts : Facts)
        → Answers settings.now (ask_by at caller.now commands.Queues) facts
        (state_of S.Store store.old) (state_of S.Store store.new) result }
    ensures kept { LeavesTables (state_of S.Store store.old) (state_of S.Store store.new) }
    ensures fault { IfErr result (λ refusal. refusal ≡ Refusal.Unavailable) }
{
    match visible_queues(settings, caller) {
        QueueVisibility::One(name) => one_queue(alloc, store, name),
        _ => all_seen(alloc, store, settings, caller),
    }
}

/// Those of all queues that the caller may see. `Unavailable` where memory or the store refused.
/// The tables stay as they are.
fn all_seen<S: Backend>(
    alloc: Global,
    store: &mut Store<S>,
    settings: &Settings,
    caller: &str,
) -> Result<Answer, Refusal>
    ensures told { (at : ℕ) (facts : Facts)
        → Answers settings.now (ask_by at caller.now commands.Queues) facts
        (state_of S.Store store.old) (state_of S.Store store.new) result }
    ensures kept { LeavesTables (state_of S.Store store.old) (state_of S.Store store.new) }
    ensures fault { IfErr result (λ refusal. refusal ≡ Refusal.Unavailable) }
{
    let queues = store.queues(alloc)?;
    Ok(Answer::Queues(queues_seen(settings, caller, queues)))
}

/// Those of the queues that the caller may see.
fn queues_seen(settings: &Settings, caller: &str, mut queues: Vec<QueueRow>) -> Sequence<QueueRow>
    ensures { result ≡ filter (rights.sees_queue settings.now caller.now) queues.items }
{
    queues.retain(|queue| sees_queue(settings, caller, queue));
    Sequence::from(queues)
}

/// The queue of this name, if it is there. `Unavailable` where memory or the store refused. The
/// tables stay as they are.
fn one_queue<S: Backend>(
    alloc: Global,
    store: &mut Store<S>,
    name: &Text,
) -> Result<Answer, Refusal>
    ensures told { Tells (λ desk answer. answer
        ≡ Answer.Queues (option_to_list (queue_at desk name.now)))
        (state_of S.Store store.old) (state_of S.Store store.new) result }
    ensures kept { LeavesTables (state_of S.Store store.old) (state_of S.Store store.new) }
    ensures fault { IfErr result (λ refusal. refusal ≡ Refusal.Unavailable) }
{
    let queue = store.queue_named(name)?;
    Ok(Answer::Queues(listed(alloc, queue)?))
}

/// A list of the queue, or of none.
fn listed(alloc: Global, queue: Option<QueueRow>) -> Result<Sequence<QueueRow>, AllocError>
    ensures { IfOk result (λ queues. queues ≡ option_to_list queue) }
{
    let mut queues = Vec::new(alloc);
    if let Some(queue) = queue {
        queues.push(queue)?;
    }
    Ok(Sequence::from(queues))
}
