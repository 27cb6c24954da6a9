//! The parts of a lifecycle.

ghost use Rattle.std.specs.Prelude.{◌≡◌, ◌++◌, IfOk, map};
ghost use Rattle.toml.specs.View.{view, table_view};
ghost use Rattle.lifecycle_core.specs.Standard.{move_to};
ghost use Rattle.settings_parts.specs.LifecycleParts as spec;

use crate::values::{table_at, text_of, text_or_empty, texts_at, texts_of};
use lifecycle_core::{Move, MoveRight, Parts};
use settings_form::text_forms::cut;
use std::alloc::{AllocError, Global};
use text_core::{Sequence, Text};
use toml::{Table, Value};

/// Moves from a status to each of these.
fn push_moves(from: &Text, statuses: &[Text], found: &mut Vec<Move>) -> Result<(), AllocError>
    ensures { IfOk result (λ _. found.new.items
        ≡ found.old.items ++ map (move_to from.now) statuses.now) }
{
    for to in statuses {
        found.push(Move {
            from: from.clone()?,
            to: to.clone()?,
        })?;
    }
    Ok(())
}

/// The moves of a table, from each of its keys to the statuses listed there.
fn moves_in(alloc: Global, table: &Table) -> Result<Vec<Move>, AllocError>
    ensures { IfOk result (λ v. v.items ≡ spec.moves_in (table_view table.now)) }
{
    let mut found = Vec::new(alloc);
    for (from, value) in table.iter() {
        let from = Text::new(alloc, from.as_str())?;
        let statuses = texts_of(alloc, value)?;
        push_moves(&from, statuses.as_slice(), &mut found)?;
    }
    Ok(found)
}

fn moves_of(alloc: Global, table: &Table) -> Result<Vec<Move>, AllocError>
    ensures { IfOk result (λ v. v.items ≡ spec.moves_of (table_view table.now)) }
{
    match table_at(table, "transitions") {
        Some(moves) => moves_in(alloc, moves),
        None => Ok(Vec::new(alloc)),
    }
}

/// The right that a key and its value give.
fn right_at(alloc: Global, key: &str, value: &Value) -> Result<MoveRight, AllocError>
    ensures { IfOk result (λ r. r ≡ spec.right_at key.now (view value.now)) }
{
    let (from, rest) = cut(key);
    let (_arrow, to) = cut(rest);
    Ok(MoveRight {
        from: Text::new(alloc, from)?,
        to: Text::new(alloc, to)?,
        right: text_of(alloc, value)?,
    })
}

/// The rights of a table.
fn rights_in(alloc: Global, table: &Table) -> Result<Vec<MoveRight>, AllocError>
    ensures { IfOk result (λ v. v.items ≡ spec.rights_in (table_view table.now)) }
{
    let mut found = Vec::new(alloc);
    for (key, value) in table.iter() {
        found.push(right_at(alloc, key.as_str(), value)?)?;
    }
    Ok(found)
}

fn rights_of(alloc: Global, table: &Table) -> Result<Vec<MoveRight>, AllocError>
    ensures { IfOk result (λ v. v.items ≡ spec.rights_of (table_view table.now)) }
{
    match table_at(table, "rights") {
        Some(rights) => rights_in(alloc, rights),
        None => Ok(Vec::new(alloc)),
    }
}

/// The parts of the lifecycle that a table states.
pub fn lifecycle_of(alloc: Global, table: &Table) -> Result<Parts, AllocError>
    ensures { IfOk result (λ p. p ≡ spec.lifecycle_of (table_view table.now)) }
{
    Ok(Parts {
        initial: texts_at(alloc, table, "initial")?,
        active: texts_at(alloc, table, "active")?,
        inactive: texts_at(alloc, table, "inactive")?,
        on_create: text_or_empty(alloc, table, "on_create")?,
        create: texts_at(alloc, table, "create")?,
        moves: Sequence::from(moves_of(alloc, table)?),
        rights: Sequence::from(rights_of(alloc, table)?),
    })
}
