//! Calls on lifecycles.

use crate::calls::forms::yes_or_no;
use crate::words::texts_of;
use lifecycle_core::{Class, Lifecycle, LifecycleFault, Move, MoveRight, Parts};
use std::alloc::{AllocError, Global};
use text_core::{Sequence, Text, Texts};

/// What is answered where a call is none.
const NO_CALL: &str = "no such call";

/// The answer to a call on lifecycles: `lifecycle` and `default` build one, and the others ask
/// about it.
pub(crate) fn lifecycle_answer(
    alloc: Global,
    lifecycle: &mut Option<Lifecycle>,
    call: &str,
    words: &[String],
) -> Result<String, AllocError> {
    match (call, words) {
        ("default", []) => keep(alloc, lifecycle, Lifecycle::default_lifecycle(alloc)),
        ("lifecycle", _) => match words.as_array() {
            Some(words) => keep(alloc, lifecycle, built(alloc, words)?),
            None => String::from_str(alloc, "no parts"),
        },
        _ => match lifecycle {
            Some(lifecycle) => String::from_str(alloc, asked(lifecycle, call, words)),
            None => String::from_str(alloc, "no lifecycle"),
        },
    }
}

/// Keeps a lifecycle that was built, or answers its fault.
fn keep(
    alloc: Global,
    lifecycle: &mut Option<Lifecycle>,
    built: Result<Lifecycle, LifecycleFault>,
) -> Result<String, AllocError> {
    match built {
        Ok(built) => {
            *lifecycle = Some(built);
            String::from_str(alloc, "built")
        }
        Err(fault) => {
            let number = fault.number();
            let name = fault.name();
            format!(in alloc; "{number} {name}: {fault}")
        }
    }
}

/// What the lifecycle answers.
fn asked<'l>(lifecycle: &'l Lifecycle, call: &str, words: &[String]) -> &'l str {
    let (status, to) = match words {
        [] => ("", ""),
        [status] => (status.as_str(), ""),
        [status, to, ..] => (status.as_str(), to.as_str()),
    };
    match (call, words.len()) {
        ("on_create", 0) => lifecycle.on_create(),
        ("class", 1) => class_name(lifecycle.class(status)),
        ("creates", 1) => yes_or_no(lifecycle.may_create(status)),
        ("reopens", 1) => lifecycle.reopen_to(status).unwrap_or("none"),
        ("moves", 2) => yes_or_no(lifecycle.may_move(status, to)),
        ("right_for", 2) => lifecycle.right_for(status, to),
        _ => NO_CALL,
    }
}

fn class_name(class: Option<Class>) -> &'static str {
    match class {
        Some(Class::Initial) => "initial",
        Some(Class::Active) => "active",
        Some(Class::Inactive) => "inactive",
        None => "none",
    }
}

/// The lifecycle of seven words: the initial, active and inactive statuses, the status on create,
/// those for creation, the moves, each as `new>open`, and the rights, each as
/// `new>open:ModifyTicket`.
fn built(
    alloc: Global,
    words: &[String; 7],
) -> Result<Result<Lifecycle, LifecycleFault>, AllocError> {
    let mut parts = no_parts(alloc);
    fill(alloc, words, &mut parts)?;
    Ok(Lifecycle::build(alloc, &parts))
}

fn no_parts(alloc: Global) -> Parts {
    Parts {
        initial: Texts::from(Vec::new(alloc)),
        active: Texts::from(Vec::new(alloc)),
        inactive: Texts::from(Vec::new(alloc)),
        on_create: Text::from(String::new(alloc)),
        create: Texts::from(Vec::new(alloc)),
        moves: Sequence::from(Vec::new(alloc)),
        rights: Sequence::from(Vec::new(alloc)),
    }
}

/// Puts each part in its place, so that no more than these are taken apart where memory is refused.
fn fill(alloc: Global, words: &[String; 7], parts: &mut Parts) -> Result<(), AllocError> {
    let [initial, active, inactive, on_create, create, moves, rights] = words;
    parts.initial = texts_of(alloc, initial.as_str())?;
    parts.active = texts_of(alloc, active.as_str())?;
    parts.inactive = texts_of(alloc, inactive.as_str())?;
    parts.on_create = Text::new(alloc, on_create.as_str())?;
    parts.create = texts_of(alloc, create.as_str())?;
    parts.moves = moves_of(alloc, moves.as_str())?;
    parts.rights = rights_of(alloc, rights.as_str())?;
    Ok(())
}

fn moves_of(alloc: Global, line: &str) -> Result<Sequence<Move>, AllocError> {
    let mut moves = Vec::new(alloc);
    for word in line.split(' ') {
        if let Some((from, to)) = word.split_once('>') {
            moves.push(Move {
                from: Text::new(alloc, from)?,
                to: Text::new(alloc, to)?,
            })?;
        }
    }
    Ok(Sequence::from(moves))
}

fn rights_of(alloc: Global, line: &str) -> Result<Sequence<MoveRight>, AllocError> {
    let mut rights = Vec::new(alloc);
    for word in line.split(' ') {
        if let Some((pair, right)) = word.split_once(':') {
            let (from, to) = pair.split_once('>').unwrap_or((pair, ""));
            rights.push(MoveRight {
                from: Text::new(alloc, from)?,
                to: Text::new(alloc, to)?,
                right: Text::new(alloc, right)?,
            })?;
        }
    }
    Ok(Sequence::from(rights))
}
