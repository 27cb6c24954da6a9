//! The faults of persons, groups and grants.

ghost use Rattle.std.specs.Prelude.{◌≡◌, ◌≢◌, ◌||◌, IfSome, find, is_some, not};
ghost use Rattle.std.specs.List.{list_all, position};
ghost use Rattle.std.specs.Option.{option_copied};
ghost use Rattle.rights_core.specs.People as words;
ghost use Rattle.rights_core.specs.RightsFaults as faults;
ghost use Rattle.text_core.specs.Form.{is_name as is_name_of};

use crate::directory::Directory;
use crate::fault::RightsFault;
use crate::grant::{Grant, Subject};
use crate::parts::Group;
use std::alloc::Global;
use text_core::{Text, is_name, is_right_name};

/// The fault with the least number that applies. What memory is refused is done without.
#[tactic(auto, unfolding(crate::specs::RightsFaults::fault_of))]
pub(crate) fn fault_of(
    alloc: Global,
    persons: &[Text],
    groups: &[Group],
    grants: &[Grant],
) -> Option<RightsFault>
    ensures least { result ≡ faults.fault_of (words.parts_of persons.now groups.now grants.now) }
    ensures of_parts { IfSome result (λ f. f ≢ RightsFault.NoMemory) }
{
    if !has_names(persons, groups, grants) {
        return Some(RightsFault::BadName);
    }
    let Some(directory) = Directory::of(alloc, persons, groups) else {
        return Some(RightsFault::Repeated);
    };
    if !knows_members(&directory, groups) {
        Some(RightsFault::UnknownMember)
    } else if !knows_subjects(&directory, grants) {
        Some(RightsFault::UnknownSubject)
    } else {
        None
    }
}

/// Whether persons, groups, rights and queues are named as they may be.
fn has_names(persons: &[Text], groups: &[Group], grants: &[Grant]) -> bool
    ensures { result ≡ faults.has_names (words.parts_of persons.now groups.now grants.now) }
{
    misnamed_person(persons).is_none()
        && misnamed_group(groups).is_none()
        && misnamed_grant(grants).is_none()
}

/// The first person whose name isn't a name.
pub fn misnamed_person(persons: &[Text]) -> Option<&Text>
    ensures { option_copied result ≡ find (λ name. not (is_name_of name)) persons.now }
{
    persons.iter().find(|t| !is_name(t.as_str()))
}

/// The first group whose name isn't a name.
pub fn misnamed_group(groups: &[Group]) -> Option<&Group>
    ensures { option_copied result ≡ find (λ g. not (is_name_of g.name)) groups.now }
{
    groups.iter().find(|g| !is_name(g.name.as_str()))
}

/// Which grant, from 0, is the first of a right that isn't a right's name, or for a queue whose name
/// isn't a name.
pub fn misnamed_grant(grants: &[Grant]) -> Option<usize>
    ensures { result ≡ position (λ g. not (faults.has_grant_names g)) grants.now }
{
    grants.iter().position(|g| !has_grant_names(g))
}

fn has_grant_names(grant: &Grant) -> bool
    ensures { result ≡ faults.has_grant_names grant.now }
{
    misname(grant).is_none()
}

/// The right of a grant where that isn't a right's name, or else the queue where that isn't a name.
pub fn misname(grant: &Grant) -> Option<&Text>
    ensures { option_copied result ≡ faults.misname grant.now }
{
    if !is_right_name(grant.right.as_str()) {
        return Some(&grant.right);
    }
    match &grant.queue {
        Some(queue) if !is_name(queue.as_str()) => Some(queue),
        _ => None,
    }
}

/// Whether each member of a group is a person or a group.
fn knows_members(directory: &Directory, groups: &[Group]) -> bool
    ensures { result ≡ list_all
        (faults.has_known_members directory.now.0 directory.now.1)
        groups.now }
{
    group_of_stranger(directory, groups).is_none()
}

/// The first group with a member that is neither a person nor a group.
pub fn group_of_stranger<'g>(directory: &Directory, groups: &'g [Group]) -> Option<&'g Group>
    ensures { option_copied result
        ≡ find (λ g. is_some (faults.stranger directory.now.0 directory.now.1 g.members)) groups.now }
{
    groups
        .iter()
        .find(|g| stranger(directory, g.members.as_slice()).is_some())
}

/// The first member that is neither a person nor a group.
pub fn stranger<'m>(directory: &Directory, members: &'m [Text]) -> Option<&'m Text>
    ensures { option_copied result
        ≡ faults.stranger directory.now.0 directory.now.1 members.now }
{
    members.iter().find(|m| !has_either(directory, m.as_str()))
}

/// Whether a person or a group has this name.
fn has_either(directory: &Directory, name: &str) -> bool
    ensures { result ≡ (words.is_among directory.now.0 name.now
        || faults.has_group directory.now.1 name.now) }
{
    directory.has_person(name) || directory.has_group(name)
}

/// Whether the persons and the groups that grants are for are there.
fn knows_subjects(directory: &Directory, grants: &[Grant]) -> bool
    ensures { result
        ≡ list_all (λ g. faults.is_there directory.now.0 directory.now.1 g.subject) grants.now }
{
    grant_to_none(directory, grants).is_none()
}

/// Which grant, from 0, is the first for a person or a group that isn't there.
pub fn grant_to_none(directory: &Directory, grants: &[Grant]) -> Option<usize>
    ensures { result ≡ position
        (λ g. not (faults.is_there directory.now.0 directory.now.1 g.subject)) grants.now }
{
    grants.iter().position(|g| !is_there(directory, &g.subject))
}

fn is_there(directory: &Directory, subject: &Subject) -> bool
    ensures { result ≡ faults.is_there directory.now.0 directory.now.1 subject.now }
{
    match subject {
        Subject::Person(name) => directory.has_person(name.as_str()),
        Subject::Group(name) => directory.has_group(name.as_str()),
        Subject::Everyone => true,
        Subject::Role(_) => true,
    }
}
