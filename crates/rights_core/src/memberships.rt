//! Which groups each person is a member of, through groups in groups.

ghost use Rattle.std.specs.Prelude.{IfOk};
ghost use Rattle.rights_core.specs.Index.{IsMemberships};

use crate::listers::groups_listing;
use crate::outer::enclosing_groups;
use crate::parts::Group;
use std::alloc::{AllocError, Global};
use std::collections::BTreeMap;
use text_core::Text;

/// The places, in order, of the groups that each person is a member of.
pub(crate) type Memberships = BTreeMap<String, Vec<usize>>;

/// The memberships of the persons in the groups.
pub(crate) fn memberships(
    alloc: Global,
    persons: &[Text],
    groups: &[Group],
) -> Result<Memberships, AllocError>
    ensures { IfOk result (λ m. IsMemberships persons.now groups.now m) }
{
    let listers = groups_listing(alloc, groups)?;
    let mut marks = vec![in alloc; 0usize; groups.len()]?;
    let marks = marks.as_mut_slice();
    let mut kept: Memberships = BTreeMap::new(alloc);
    for (earlier, person) in persons.iter().enumerate() {
        let person = person.as_str();
        let around = enclosing_groups(alloc, groups, &listers, marks, earlier + 1, person)?;
        kept.insert(String::from_str(alloc, person)?, around)?;
    }
    Ok(kept)
}
