//! Pairs of statuses that have two entries.

ghost use Rattle.std.specs.Prelude.{◌≡◌, ◌&&◌, ◌||◌, ℕ, List, not, IfOk, OnOk};
ghost use Rattle.std.specs.HashSet.{contains_text};
ghost use Rattle.std.specs.List.{list_any};
ghost use Rattle.std.specs.Str.{bytes_eq};
ghost use Rattle.lifecycle_core.specs.Fault as faults;
ghost use Rattle.lifecycle_core.specs.Pairs.{has_pair};

use crate::parts::MoveRight;
use std::alloc::{AllocError, Global};
use std::collections::{HashMap, HashSet};

/// The second statuses of pairs under their first.
type Pairs = HashMap<String, HashSet<String>>;

/// Whether two entries are for one pair of statuses. It answers without memory too.
pub(crate) fn repeats_pair(alloc: Global, rights: &[MoveRight]) -> bool
    ensures { result ≡ faults.repeats_pair rights.now }
{
    match repeats_in_set(alloc, rights) {
        Ok(repeats) => repeats,
        Err(_) => repeats_in_walk(rights),
    }
}

/// The same, found by a set of the pairs so far.
fn repeats_in_set(alloc: Global, rights: &[MoveRight]) -> Result<bool, AllocError>
    ensures { IfOk result (λ repeats. repeats ≡ faults.repeats_pair rights.now) }
{
    let mut pairs: Pairs = HashMap::new(alloc);
    for entry in rights {
        let from = entry.from.as_str();
        let to = entry.to.as_str();
        if !put(alloc, &mut pairs, from, to)? {
            return Ok(true);
        }
    }
    Ok(false)
}

/// Adds a pair, and tells whether it is new.
fn put(alloc: Global, pairs: &mut Pairs, from: &str, to: &str) -> Result<bool, AllocError>
    ensures new { IfOk result (λ added. added ≡ not (has_pair pairs.old from.now to.now)) }
    ensures kept { OnOk result ((f t : List ℕ) → has_pair pairs.new f t
        ≡ ((bytes_eq f from.now && bytes_eq to.now t) || has_pair pairs.old f t)) }
{
    let from = String::from_str(alloc, from)?;
    let added = put_under(alloc, pairs.entry(from)?.or_default(), to)?;
    Ok(added)
}

/// Adds a status, and tells whether it is new.
fn put_under(alloc: Global, set: &mut HashSet<String>, to: &str) -> Result<bool, AllocError>
    ensures new { IfOk result (λ added. added ≡ not (contains_text set.old to.now)) }
    ensures kept { OnOk result ((t : List ℕ) → contains_text set.new t
        ≡ (bytes_eq to.now t || contains_text set.old t)) }
{
    let added = set.insert(String::from_str(alloc, to)?)?;
    Ok(added)
}

/// Whether two entries are for one pair, found by a walk from each entry.
fn repeats_in_walk(rights: &[MoveRight]) -> bool
    ensures { result ≡ faults.repeats_pair rights.now }
{
    for (i, entry) in rights.iter().enumerate() {
        if has_entry(&rights[i + 1..], entry) {
            return true;
        }
    }
    false
}

/// Whether an entry of the list is for the same pair.
fn has_entry(rights: &[MoveRight], entry: &MoveRight) -> bool
    ensures { result ≡ faults.has_entry rights.now entry.now }
{
    rights.iter().any(|other| {
        other.from.as_str() == entry.from.as_str() && other.to.as_str() == entry.to.as_str()
    })
}
