//! The lifecycle that is there without settings.

ghost use Rattle.std.specs.Prelude.{◌≡◌, ◌++◌, None, IfOk, map};
ghost use Rattle.lifecycle_core.specs.Fault.{fault_of};
ghost use Rattle.lifecycle_core.specs.Standard as words;

use crate::parts::{ANY_STATUS, Move, MoveRight, Parts};
use std::alloc::{AllocError, Global};
use text_core::{Sequence, Text, Texts};

/// The parts of the lifecycle `default`, which have no fault.
#[tactic(auto, unfolding(crate::specs::Standard::default_lifecycle, crate::specs::Fault::fault_of))]
pub(crate) fn default_parts(alloc: Global) -> Result<Parts, AllocError>
    ensures ok { IfOk result (λ p. p ≡ words.default_lifecycle) }
    ensures sound { fault_of words.default_lifecycle ≡ None }
{
    let statuses = Texts::new(
        alloc,
        &["new", "open", "stalled", "resolved", "rejected", "deleted"],
    )?;
    Ok(Parts {
        initial: Texts::new(alloc, &["new"])?,
        active: Texts::new(alloc, &["open", "stalled"])?,
        inactive: Texts::new(alloc, &["resolved", "rejected", "deleted"])?,
        on_create: Text::new(alloc, "new")?,
        create: Texts::new(alloc, &["new", "open", "resolved"])?,
        moves: every_move(alloc, statuses.as_slice())?,
        rights: default_rights(alloc)?,
    })
}

/// Any status to `deleted`, and any status to any.
fn default_rights(alloc: Global) -> Result<Sequence<MoveRight>, AllocError>
    ensures { IfOk result (λ r. r ≡ words.default_rights) }
{
    let rights = vec![in alloc;
        right_of(alloc, ANY_STATUS, "deleted", "DeleteTicket")?,
        right_of(alloc, ANY_STATUS, ANY_STATUS, "ModifyTicket")?,
    ]?;
    Ok(Sequence::from(rights))
}

fn right_of(alloc: Global, from: &str, to: &str, right: &str) -> Result<MoveRight, AllocError>
    ensures { IfOk result (λ e. e ≡ record { from = from.now; to = to.now; right = right.now }) }
{
    Ok(MoveRight {
        from: Text::new(alloc, from)?,
        to: Text::new(alloc, to)?,
        right: Text::new(alloc, right)?,
    })
}

/// The moves between any two different statuses.
fn every_move(alloc: Global, statuses: &[Text]) -> Result<Sequence<Move>, AllocError>
    ensures { IfOk result (λ m. m ≡ words.every_move statuses.now) }
{
    let mut moves = Vec::new(alloc);
    for from in statuses {
        add_moves(alloc, &mut moves, from.as_str(), statuses)?;
    }
    Ok(Sequence::from(moves))
}

/// Adds the moves from the status to the others.
fn add_moves(
    alloc: Global,
    moves: &mut Vec<Move>,
    from: &str,
    statuses: &[Text],
) -> Result<(), AllocError>
    ensures { IfOk result (λ _. moves.new.items
        ≡ moves.old.items ++ words.moves_from statuses.now from.now) }
{
    for to in statuses {
        if to.as_str() != from {
            moves.push(Move {
                from: Text::new(alloc, from)?,
                to: to.clone()?,
            })?;
        }
    }
    Ok(())
}
