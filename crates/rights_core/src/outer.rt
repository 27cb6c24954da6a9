//! The groups around a person: those that list it, those that list these, and so on.
ghost use Rattle.std.specs.Prelude.{◌≡◌, ℕ, ◌+◌, List, length, IfOk, OnOk};
ghost use Rattle.std.specs.List.Sorted.{IsNonDecreasing};
ghost use Rattle.rights_core.specs.Closure as words;
ghost use Rattle.rights_core.specs.People.{leads};
ghost use Rattle.text_core.specs.Texts as texts;

use crate::listers::{Listers, listed};
use crate::parts::Group;
use crate::places::name_at;
use std::alloc::{AllocError, Global};

/// The places, in order, of the groups from which a chain leads to the person.
pub(crate) fn enclosing_groups(
    alloc: Global,
    groups: &[Group],
    listers: &Listers,
    marks: &mut [usize],
    turn: usize,
    person: &str,
) -> Result<Vec<usize>, AllocError>
    requires listers { words.IsListers groups.now listers.now }
    requires size { length marks.old ≡ length groups.now }
    requires before { words.AreBefore turn marks.old }
    ensures found { IfOk result (λ found. (group : List ℕ) →
        texts.is_among (words.names_at groups.now found.items) group
        ≡ leads groups.now person.now group) }
    ensures within { IfOk result (λ found. words.AreWithin groups.now found.items) }
    ensures rising { IfOk result (λ found. IsNonDecreasing found.items) }
    ensures size { OnOk result (length marks.new ≡ length groups.now) }
    ensures before { OnOk result (words.AreBefore (turn + 1) marks.new) }
{
    let mut found = found_around(alloc, groups, listers, marks, turn, person)?;
    found.sort_unstable();
    Ok(found)
}

/// The same in the order in which they are found. Each group is looked at once, and marked with the
/// turn then, which comes after those of all earlier marks.
fn found_around(
    alloc: Global,
    groups: &[Group],
    listers: &Listers,
    marks: &mut [usize],
    turn: usize,
    person: &str,
) -> Result<Vec<usize>, AllocError>
    requires listers { words.IsListers groups.now listers.now }
    requires size { length marks.old ≡ length groups.now }
    requires before { words.AreBefore turn marks.old }
    ensures found { IfOk result (λ found. (group : List ℕ) →
        texts.is_among (words.names_at groups.now found.items) group
        ≡ leads groups.now person.now group) }
    ensures within { IfOk result (λ found. words.AreWithin groups.now found.items) }
    ensures size { OnOk result (length marks.new ≡ length groups.now) }
    ensures before { OnOk result (words.AreBefore (turn + 1) marks.new) }
{
    let mut found = Vec::new(alloc);
    visit(groups, listed(listers, person), &mut found, marks, turn)?;
    let mut next = 0;
    while next < found.len() {
        let places = listed(listers, name_at(groups, found[next]));
        visit(groups, places, &mut found, marks, turn)?;
        next += 1;
    }
    Ok(found)
}

/// Marks the places with the turn, and adds those that weren't to what was found.
fn visit(
    groups: &[Group],
    places: &[usize],
    found: &mut Vec<usize>,
    marks: &mut [usize],
    turn: usize,
) -> Result<(), AllocError>
    requires { length marks.old ≡ length groups.now }
    ensures marked { OnOk result (words.Marks groups.now places.now
        (words.names_at groups.now found.old.items) (words.marked_in turn marks.old)
        (words.names_at groups.now found.new.items) (words.marked_in turn marks.new)) }
    ensures within { OnOk result
        (words.AreWithin groups.now found.old.items → words.AreWithin groups.now found.new.items) }
    ensures size { OnOk result (length marks.new ≡ length groups.now) }
    ensures before { OnOk result
        (words.AreBefore (turn + 1) marks.old → words.AreBefore (turn + 1) marks.new) }
{
    for place in places {
        if *place < marks.len() && marks[*place] != turn {
            marks[*place] = turn;
            found.push(*place)?;
        }
    }
    Ok(())
}
