//! The faults of the parts of a lifecycle.

ghost use Rattle.std.specs.Prelude.{◌≡◌, ◌≢◌, IfSome};
ghost use Rattle.std.specs.List.{list_all, list_any};
ghost use Rattle.lifecycle_core.specs.Fault as faults;
ghost use Rattle.text_core.specs.Form.{is_name as is_name_of};

use crate::fault::LifecycleFault;
use crate::pairs::repeats_pair;
use crate::parts::{Move, MoveRight, Parts};
use crate::statuses::Statuses;
use std::alloc::Global;
use text_core::{Text, is_name, is_right_name};

/// The fault with the least number that applies to the parts. What memory is refused is done
/// without.
#[tactic(auto, unfolding(crate::specs::Fault::fault_of))]
pub(crate) fn fault_of(alloc: Global, parts: &Parts) -> Option<LifecycleFault>
    ensures least { result ≡ faults.fault_of parts.now }
    ensures of_parts { IfSome result (λ f. f ≢ LifecycleFault.NoMemory) }
{
    if !has_names(parts) {
        return Some(LifecycleFault::BadName);
    }
    let Some(statuses) = Statuses::of(alloc, parts) else {
        return Some(LifecycleFault::Repeated);
    };
    if repeats_pair(alloc, parts.rights.as_slice()) {
        Some(LifecycleFault::Repeated)
    } else if parts.initial.is_empty() {
        Some(LifecycleFault::NoInitial)
    } else if parts.active.is_empty() {
        Some(LifecycleFault::NoActive)
    } else if !statuses.are_known() {
        Some(LifecycleFault::UnknownStatus)
    } else if has_self_move(parts.moves.as_slice()) {
        Some(LifecycleFault::SelfMove)
    } else if !parts.create.contains(parts.on_create.as_str()) {
        Some(LifecycleFault::BadOnCreate)
    } else {
        None
    }
}

/// Whether all statuses are names, and all rights right's names.
fn has_names(parts: &Parts) -> bool
    ensures { result ≡ faults.has_names parts.now }
{
    are_names(parts.initial.as_slice())
        && are_names(parts.active.as_slice())
        && are_names(parts.inactive.as_slice())
        && are_rights(parts.rights.as_slice())
}

fn are_names(texts: &[Text]) -> bool
    ensures { result ≡ list_all is_name_of texts.now }
{
    texts.iter().all(|t| is_name(t.as_str()))
}

fn are_rights(rights: &[MoveRight]) -> bool
    ensures { result ≡ list_all faults.has_right_name rights.now }
{
    rights
        .iter()
        .all(|entry| is_right_name(entry.right.as_str()))
}

/// Whether a move leads from a status to itself.
fn has_self_move(moves: &[Move]) -> bool
    ensures { result ≡ list_any faults.is_self_move moves.now }
{
    moves.iter().any(|m| m.from.as_str() == m.to.as_str())
}
