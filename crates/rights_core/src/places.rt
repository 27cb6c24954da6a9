//! The groups that a person is a member of, by their places.

ghost use Rattle.std.specs.Prelude.{◌≡◌, ◌<◌, false, length, IfOk};
ghost use Rattle.std.specs.List.{slice_index_or};
ghost use Rattle.rights_core.specs.Closure as words;
ghost use Rattle.rights_core.specs.Closure.{AreWithin, names_at};
ghost use Rattle.std.specs.List.Sorted.{IsNonDecreasing};
ghost use Rattle.rights_core.specs.Index.{IsIndex};
ghost use Rattle.rights_core.specs.RightsFaults.{group_names};
ghost use Rattle.text_core.specs.Texts.{is_among, repeats_text};
ghost use Rattle.std.specs.Prelude.{[]};

use crate::parts::Group;
use std::alloc::{AllocError, Global};
use std::collections::HashMap;
use std::marker::Model;

/// The place of each group under its name.
pub(crate) type GroupPlaces = HashMap<String, usize>;

/// The places of the groups under their names, of which none stands twice.
pub(crate) fn group_places(alloc: Global, groups: &[Group]) -> Result<GroupPlaces, AllocError>
    requires { repeats_text (group_names groups.now) ≡ false }
    ensures { IfOk result (IsIndex groups.now) }
{
    let mut index: GroupPlaces = HashMap::new(alloc);
    for (place, group) in groups.iter().enumerate() {
        index.insert(String::from_str(alloc, group.name.as_str())?, place)?;
    }
    Ok(index)
}

/// The groups that a person is a member of, which contracts see as their names.
#[derive(Drop)]
pub(crate) struct Around<'a> {
    groups: &'a [Group],
    index: &'a GroupPlaces,
    places: &'a [usize],
}

impl<'a> Model for Around<'a> {
    ghost use Rattle.std.specs.Prelude.{ℕ, List};
    ghost use Rattle.std.specs.List.Sorted.{IsNonDecreasing};
    ghost use Rattle.rights_core.specs.Closure.{AreWithin, names_at};
    ghost use Rattle.rights_core.specs.Index.{IsIndex};

    ghost Value = { List (List ℕ) };

    ghost view = { λ a. names_at a.groups.now a.places.now };

    ghost invariant = { λ a. IsIndex a.groups.now a.index.now
        × AreWithin a.groups.now a.places.now × IsNonDecreasing a.places.now };
}

impl<'a> Around<'a> {
    /// The groups at these places.
    pub(crate) fn of(groups: &'a [Group], index: &'a GroupPlaces, places: &'a [usize]) -> Around<'a>
        requires index { IsIndex groups.now index.now }
        requires within { AreWithin groups.now places.now }
        requires rising { IsNonDecreasing places.now }
        ensures { result ≡ names_at groups.now places.now }
    {
        Around {
            groups,
            index,
            places,
        }
    }

    /// How many groups these are.
    pub(crate) fn len(&self) -> usize
        ensures { result ≡ length self.now }
    {
        self.places.len()
    }

    /// The name of one of them.
    pub(crate) fn name(&self, number: usize) -> &str
        requires { number < length self.now }
        ensures { result.now ≡ slice_index_or self.now number [] }
    {
        name_at(self.groups, self.places[number])
    }

    /// Whether one of them has this name.
    pub(crate) fn contains(&self, name: &str) -> bool
        ensures { result ≡ is_among self.now name.now }
    {
        match self.index.get(name) {
            Some(place) => has_place(self.places, *place),
            None => false,
        }
    }
}

/// Whether the place is one of these.
fn has_place(places: &[usize], place: usize) -> bool
    requires { IsNonDecreasing places.now }
    ensures { result ≡ words.has_place places.now place }
{
    places.binary_search(&place).is_ok()
}

/// The name of the group at the place.
pub(crate) fn name_at(groups: &[Group], place: usize) -> &str
    ensures { result.now ≡ words.name_at groups.now place }
{
    match groups.get(place) {
        Some(group) => group.name.as_str(),
        None => "",
    }
}
