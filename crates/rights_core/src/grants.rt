//! Grants under their rights and names, so that one is found without a walk over all.

ghost use Rattle.std.specs.Prelude.{◌≡◌, ◌&&◌, ◌||◌, ◌++◌, ◌∷◌, [], ℕ, List};
ghost use Rattle.std.specs.Prelude.{if◌then◌else◌, string_bytes, IfOk, OnOk};
ghost use Rattle.std.specs.List.{list_any};
ghost use Rattle.std.specs.Str.{bytes_eq};
ghost use Rattle.rights_core.specs.Index as words;
ghost use Rattle.rights_core.specs.Index.{IsGrantsByRight, is_meant_in, meets};
ghost use Rattle.rights_core.specs.People.{covers as covers_queue};
ghost use Rattle.rights_core.specs.Right.{super_user};
ghost use Rattle.text_core.specs.Texts.{is_among};

use crate::grant::{Grant, Subject};
use crate::places::Around;
use crate::right::SUPER_USER;
use crate::role::Roles;
use std::alloc::{AllocError, Global};
use std::collections::HashMap;

/// The grants of each right, each under the name of its person or group, and else under no name.
pub(crate) type GrantsByRight = HashMap<String, GrantsByName>;

type GrantsByName = HashMap<String, Vec<Grant>>;

/// The grants under their rights and names.
pub(crate) fn by_right(alloc: Global, grants: &[Grant]) -> Result<GrantsByRight, AllocError>
    ensures { IfOk result (IsGrantsByRight grants.now) }
{
    let mut kept: GrantsByRight = HashMap::new(alloc);
    for grant in grants {
        let name = subject_name(&grant.subject);
        put(alloc, &mut kept, grant.right.as_str(), name, grant)?;
    }
    Ok(kept)
}

fn put(
    alloc: Global,
    kept: &mut GrantsByRight,
    right: &str,
    name: &str,
    grant: &Grant,
) -> Result<(), AllocError>
    ensures { OnOk result ((r n : List ℕ) → words.grants_under kept.new r n
        ≡ (if bytes_eq r right.now && bytes_eq n name.now
        then words.grants_under kept.old r n ++ grant.now ∷ []
        else words.grants_under kept.old r n)) }
{
    let right = String::from_str(alloc, right)?;
    put_under(alloc, kept.entry(right)?.or_default(), name, grant)?;
    Ok(())
}

fn put_under(
    alloc: Global,
    kept: &mut GrantsByName,
    name: &str,
    grant: &Grant,
) -> Result<(), AllocError>
    ensures { OnOk result ((q : List ℕ) → words.grants_to kept.new q
        ≡ (if bytes_eq q name.now then words.grants_to kept.old q ++ grant.now ∷ []
        else words.grants_to kept.old q)) }
{
    let name = String::from_str(alloc, name)?;
    kept.entry(name)?.or_default().push(grant.clone()?)?;
    Ok(())
}

/// The name of the person or of the group, and else no name.
fn subject_name(subject: &Subject) -> &str
    ensures { result.now ≡ words.subject_name subject.now }
{
    match subject {
        Subject::Person(name) => name.as_str(),
        Subject::Group(name) => name.as_str(),
        Subject::Everyone => "",
        Subject::Role(_) => "",
    }
}

/// Whether a grant of the right, or of `SuperUser`, covers the queue and means the person, who is a
/// member of the groups and has the roles.
#[tactic(auto, unfolding(crate::specs::Right::super_user))]
pub(crate) fn give(
    kept: &GrantsByRight,
    right: &str,
    queue: &str,
    person: &str,
    groups: &Around<'_>,
    roles: Roles,
) -> bool
    ensures { result
        ≡ (words.meets_under kept.now right.now queue.now person.now groups.now roles
        || words.meets_under kept.now super_user queue.now person.now groups.now roles) }
{
    gives(kept, right, queue, person, groups, roles)
        || gives(kept, SUPER_USER, queue, person, groups, roles)
}

/// The same of the one right.
fn gives(
    kept: &GrantsByRight,
    right: &str,
    queue: &str,
    person: &str,
    groups: &Around<'_>,
    roles: Roles,
) -> bool
    ensures { result ≡ words.meets_under kept.now right.now queue.now person.now groups.now roles }
{
    match kept.get(right) {
        Some(given) => gives_to(given, queue, person, groups, roles),
        None => false,
    }
}

/// Whether one of the grants that are kept under no name, the person's or a group's covers the
/// queue and means the person.
fn gives_to(
    given: &GrantsByName,
    queue: &str,
    person: &str,
    groups: &Around<'_>,
    roles: Roles,
) -> bool
    ensures { result ≡ words.meets_to given.now queue.now person.now groups.now roles }
{
    meet(granted(given, ""), queue, person, groups, roles)
        || meet(granted(given, person), queue, person, groups, roles)
        || gives_to_groups(given, queue, person, groups, roles)
}

/// The same of those under a group's name. It looks at the names under which grants are kept, or at
/// the groups, whichever are fewer.
fn gives_to_groups(
    given: &GrantsByName,
    queue: &str,
    person: &str,
    groups: &Around<'_>,
    roles: Roles,
) -> bool
    ensures { result ≡ list_any (λ name.
        list_any (meets queue.now person.now groups.now roles) (words.grants_to given.now name))
        groups.now }
{
    if given.len() < groups.len() {
        gives_to_names(given, queue, person, groups, roles)
    } else {
        gives_to_each(given, queue, person, groups, roles)
    }
}

/// The same of each name under which grants are kept, where that is a group's.
fn gives_to_names(
    given: &GrantsByName,
    queue: &str,
    person: &str,
    groups: &Around<'_>,
    roles: Roles,
) -> bool
    ensures { result ≡ list_any (λ e. is_among groups.now (string_bytes e.0)
        && list_any (meets queue.now person.now groups.now roles) e.1.items) given.now.entries }
{
    given.iter().any(|(name, grants)| {
        groups.contains(name.as_str()) && meet(grants.as_slice(), queue, person, groups, roles)
    })
}

/// The same of each group.
fn gives_to_each(
    given: &GrantsByName,
    queue: &str,
    person: &str,
    groups: &Around<'_>,
    roles: Roles,
) -> bool
    ensures { result ≡ list_any (λ name.
        list_any (meets queue.now person.now groups.now roles) (words.grants_to given.now name))
        groups.now }
{
    for number in 0..groups.len() {
        if meet(
            granted(given, groups.name(number)),
            queue,
            person,
            groups,
            roles,
        ) {
            return true;
        }
    }
    false
}

/// The grants that are kept under the name.
fn granted<'a>(given: &'a GrantsByName, name: &str) -> &'a [Grant]
    ensures { result.now ≡ words.grants_to given.now name.now }
{
    given.get(name).map_or(&[], |grants| grants.as_slice())
}

/// Whether one of the grants covers the queue and means the person.
fn meet(grants: &[Grant], queue: &str, person: &str, groups: &Around<'_>, roles: Roles) -> bool
    ensures { result ≡ list_any (meets queue.now person.now groups.now roles) grants.now }
{
    grants.iter().any(|g| covers(g, queue) && is_meant(&g.subject, person, groups, roles))
}

/// Whether the grant is for the queue, or for all.
fn covers(grant: &Grant, queue: &str) -> bool
    ensures { result ≡ covers_queue grant.now queue.now }
{
    match &grant.queue {
        Some(covered) => covered.as_str() == queue,
        None => true,
    }
}

fn is_meant(subject: &Subject, person: &str, groups: &Around<'_>, roles: Roles) -> bool
    ensures { result ≡ is_meant_in groups.now person.now roles subject.now }
{
    match subject {
        Subject::Everyone => true,
        Subject::Person(name) => name.as_str() == person,
        Subject::Group(name) => groups.contains(name.as_str()),
        Subject::Role(role) => roles.has(*role),
    }
}
