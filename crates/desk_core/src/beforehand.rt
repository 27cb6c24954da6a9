//! What is refused before anything on the desk is looked at.
ghost use Rattle.std.specs.Prelude.{◌≡◌, ℕ, List, true, if◌then◌else◌, IfSome, Some, None};
ghost use Rattle.hours_core.specs.Moment.{is_moment};
ghost use Rattle.desk_model.specs.Commands.{plan_of};
ghost use Rattle.desk_model.specs.Commands.OpenQueue as open_queue;
ghost use Rattle.desk_model.specs.Condition.{first_holding};
ghost use Rattle.desk_model.specs.Desk.{Desk};
ghost use Rattle.desk_model.specs.Known as known;
ghost use Rattle.desk_model.specs.Plan.{conditions_of_words};
ghost use Rattle.desk_model.specs.Step.{call, guard, refusal_beforehand};

use desk_model::{Command, Refusal};
use hours_core::{END, Minute};
use settings_core::Settings;
use text_core::{Text, is_name, is_subject, is_text};

/// The refusal that a command meets on every desk, if there is one, in this order: `UnknownCaller`,
/// `BadMoment`, `BadText` of a new queue's name, a subject, or the text of a reply or a comment, and
/// `UnknownName` of a new queue's lifecycle or level. It takes no memory, and no look at the desk.
pub fn refusal_without_facts(
    settings: &Settings,
    at: u32,
    caller: &str,
    command: &Command,
) -> Option<Refusal>
    ensures first { result ≡ refusal_beforehand settings.now at caller.now command.now }
    ensures always { IfSome result (λ refusal. (desk : Desk)
        → guard settings.now at caller.now command.now desk ≡ Some refusal) }
{
    if !settings.people().knows(caller) {
        return Some(Refusal::UnknownCaller);
    }
    if moment_of(at).is_none() {
        return Some(Refusal::BadMoment);
    }
    refused_words(settings, command)
}

/// The refusal of a command's words alone, if there is one.
fn refused_words(settings: &Settings, command: &Command) -> Option<Refusal>
    ensures { (at : ℕ) (caller : List ℕ) → result
        ≡ first_holding (conditions_of_words (call settings.now at caller) (plan_of command.now)) }
{
    match command {
        Command::OpenQueue {
            queue,
            lifecycle,
            level,
        } => refused_queue(settings, queue, lifecycle, level),
        Command::Create { subject, .. } => refused_text(is_subject(subject.as_str())),
        Command::Reply { text, .. } => refused_text(is_text(text.as_str())),
        Command::Comment { text, .. } => refused_text(is_text(text.as_str())),
        _ => None,
    }
}

/// The refusal of the words that a queue is opened by, if there is one.
fn refused_queue(
    settings: &Settings,
    name: &Text,
    lifecycle: &Text,
    level: &Option<Text>,
) -> Option<Refusal>
    ensures { (at : ℕ) (caller : List ℕ) → result ≡ first_holding (open_queue.beforehand
        name.now lifecycle.now level.now (call settings.now at caller)) }
{
    if !is_name(name.as_str()) {
        Some(Refusal::BadText)
    } else if settings.lifecycle(lifecycle.as_str()).is_none() || !knows_level(settings, level) {
        Some(Refusal::UnknownName)
    } else {
        None
    }
}

/// The refusal of a text that isn't of its form.
fn refused_text(is_formed: bool) -> Option<Refusal>
    ensures { result ≡ (if is_formed then None else Some Refusal.BadText) }
{
    if is_formed {
        None
    } else {
        Some(Refusal::BadText)
    }
}

/// Whether a level that is given is one of the settings.
pub(crate) fn knows_level(settings: &Settings, level: &Option<Text>) -> bool
    ensures { result ≡ known.knows_level settings.now level.now }
{
    match level {
        Some(level) => settings.level(level.as_str()).is_some(),
        None => true,
    }
}

/// The moment of this number, if a command may happen then.
pub(crate) fn moment_of(at: u32) -> Option<Minute>
    ensures { result ≡ (if is_moment at then Some at else None) }
{
    if at < END { Minute::new(at) } else { None }
}
