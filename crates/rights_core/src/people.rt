//! People: who is known, who is a member of what, and who holds a right.

ghost use Rattle.std.specs.Prelude.{◌≡◌, ◌≢◌, ◌↔◌, ℕ, List, None, Some, IsTrue, IfOk, IfErr};
ghost use Rattle.rights_core.specs.Closure.{AreWithin, names_at};
ghost use Rattle.std.specs.List.Sorted.{IsNonDecreasing};
ghost use Rattle.rights_core.specs.People as words;
ghost use Rattle.rights_core.specs.People.{parts_of};
ghost use Rattle.rights_core.specs.RightsFaults.{fault_of};

use crate::checks;
use crate::fault::RightsFault;
use crate::grant::Grant;
use crate::grants::{self, GrantsByRight};
use crate::memberships::{self, Memberships};
use crate::parts::{Group, Parts};
use crate::places::{self, Around, GroupPlaces};
use crate::role::Roles;
use std::alloc::Global;
use std::marker::Model;
use text_core::Text;

/// Persons, groups of them, and what they are granted.
///
/// People are seen as the persons, groups and grants that they were built from, which have no
/// fault.
#[derive(Drop)]
pub struct People {
    parts: Parts,
    places: GroupPlaces,
    memberships: Memberships,
    grants: GrantsByRight,
}

impl Model for People {
    ghost use Rattle.std.specs.Prelude.{◌≡◌, None};
    ghost use Rattle.rights_core.specs.declared.parts.Parts.{Parts};
    ghost use Rattle.rights_core.specs.Index.{IsIndex, IsMemberships, IsGrantsByRight};
    ghost use Rattle.rights_core.specs.RightsFaults.{fault_of};

    ghost Value = { Parts };

    ghost view = { λ p. p.parts };

    ghost invariant = { λ p. IsMemberships p.parts.persons p.parts.groups p.memberships
        × IsGrantsByRight p.parts.grants p.grants × IsIndex p.parts.groups p.places
        × (fault_of p.parts ≡ None) };
}

impl People {
    /// The people of these persons, groups and grants, or the first fault that applies to them, by
    /// number.
    ///
    /// A group may be a member of itself, by way of others too. `NoMemory` comes only in place of
    /// people, where their lists are refused memory, never of a fault.
    pub fn build(
        alloc: Global,
        persons: &[Text],
        groups: &[Group],
        grants: &[Grant],
    ) -> Result<People, RightsFault>
        ensures ok { IfOk result (λ p.
            (fault_of (parts_of persons.now groups.now grants.now) ≡ None)
            × (p ≡ parts_of persons.now groups.now grants.now)) }
        ensures err { IfErr result (λ e. e ≢ RightsFault.NoMemory
            → fault_of (parts_of persons.now groups.now grants.now) ≡ Some e) }
        ensures memory { IfErr result (λ e. e ≡ RightsFault.NoMemory
            → fault_of (parts_of persons.now groups.now grants.now) ≡ None) }
    {
        match checks::fault_of(alloc, persons, groups, grants) {
            Some(fault) => Err(fault),
            None => Ok(People {
                parts: Parts::copied(alloc, persons, groups, grants)?,
                places: places::group_places(alloc, groups)?,
                memberships: memberships::memberships(alloc, persons, groups)?,
                grants: grants::by_right(alloc, grants)?,
            }),
        }
    }

    /// The persons, groups and grants that the people were built from, which have no fault.
    pub fn parts(&self) -> &Parts
        ensures parts { result.now ≡ self.now }
        ensures sound { fault_of self.now ≡ None }
    {
        &self.parts
    }

    /// Whether there is a person of this name.
    pub fn knows(&self, person: &str) -> bool
        ensures { result ≡ words.knows self.now person.now }
    {
        self.memberships.contains_key(person)
    }

    /// Whether the person is known and a member of the group, itself or by way of other groups.
    pub fn member(&self, person: &str, group: &str) -> bool
        ensures value { result ≡ words.is_member self.now person.now group.now }
        ensures chain { IsTrue result ↔ (IsTrue (words.knows self.now person.now)
            × ((others : List (List ℕ))
            × words.IsChain self.now.groups group.now others person.now)) }
    {
        match self.memberships.get(person) {
            Some(places) => self.around(places.as_slice()).contains(group),
            None => false,
        }
    }

    /// Whether the person, who has these roles, is known and holds the right on the queue: by a
    /// grant of it, or of `SuperUser`.
    pub fn holds(&self, person: &str, right: &str, queue: &str, roles: Roles) -> bool
        ensures { result ≡ words.holds self.now person.now right.now queue.now roles }
    {
        match self.memberships.get(person) {
            Some(places) => {
                let groups = self.around(places.as_slice());
                grants::give(&self.grants, right, queue, person, &groups, roles)
            }
            None => false, // nor what everyone holds
        }
    }

    /// The groups at these places.
    fn around<'a>(&'a self, places: &'a [usize]) -> Around<'a>
        requires within { AreWithin self.now.groups places.now }
        requires rising { IsNonDecreasing places.now }
        ensures { result ≡ names_at self.now.groups places.now }
    {
        Around::of(self.parts.groups.as_slice(), &self.places, places)
    }
}
