//! What people are built from.

ghost use Rattle.std.specs.Prelude.{◌≡◌, IfOk};
ghost use Rattle.rights_core.specs.People.{parts_of};

use crate::grant::Grant;
use std::alloc::{AllocError, Global};
use text_core::{Sequence, Text, Texts};

/// A group and its members.
#[derive(Clone, Drop)]
pub struct Group {
    pub name: Text,
    /// The names of persons and of groups. One that is named again counts once.
    pub members: Texts,
}

/// What people are seen as.
#[derive(Drop)]
pub struct Parts {
    pub persons: Texts,
    pub groups: Sequence<Group>,
    pub grants: Sequence<Grant>,
}

impl Parts {
    /// The same persons, groups and grants, their lists in memory of the allocator.
    pub(crate) fn copied(
        alloc: Global,
        persons: &[Text],
        groups: &[Group],
        grants: &[Grant],
    ) -> Result<Parts, AllocError>
        ensures { IfOk result (λ p. p ≡ parts_of persons.now groups.now grants.now) }
    {
        Ok(Parts {
            persons: Texts::from(persons.to_vec(alloc)?),
            groups: Sequence::from(groups.to_vec(alloc)?),
            grants: Sequence::from(grants.to_vec(alloc)?),
        })
    }
}
