//! Persons and groups by name.
ghost use Rattle.std.specs.Prelude.{◌≡◌, is_some, not, IfOk, IfSome};
ghost use Rattle.std.specs.HashSet.{contains_text};
ghost use Rattle.std.specs.List.{list_any};
ghost use Rattle.text_core.specs.Texts as words;
ghost use Rattle.text_core.specs.Lookup.{IsSetOf};
ghost use Rattle.rights_core.specs.RightsFaults as faults;

use crate::parts::Group;
use std::alloc::{AllocError, Global};
use std::collections::HashSet;
use std::marker::Model;
use text_core::{Text, distinct, is_among, repeats_text};

/// The persons and the groups. They are found by sets of their names, and one after the other
/// where sets were refused memory.
#[derive(Drop)]
pub struct Directory<'a> {
    persons: &'a [Text],
    groups: &'a [Group],
    names: Option<Names>,
}

/// The names of the persons, and of the groups.
#[derive(Drop)]
struct Names {
    persons: HashSet<String>,
    groups: HashSet<String>,
}

impl<'a> Model for Directory<'a> {
    ghost use Rattle.std.specs.Prelude.{ℕ, List, IfSome};
    ghost use Rattle.rights_core.specs.declared.parts.Group.{Group};
    ghost use Rattle.text_core.specs.Lookup.{IsSetOf};
    ghost use Rattle.rights_core.specs.RightsFaults.{group_names};

    ghost Value = { List (List ℕ) × List Group };

    ghost view = { λ d. (d.persons.now, d.groups.now) };

    ghost invariant = { λ d. IfSome d.names (λ n. IsSetOf d.persons.now n.persons
        × IsSetOf (group_names d.groups.now) n.groups) };
}

impl<'a> Directory<'a> {
    /// The directory, or none where a name stands twice.
    pub fn of(alloc: Global, persons: &'a [Text], groups: &'a [Group]) -> Option<Directory<'a>>
        ensures some { is_some result ≡ not (faults.repeats_name persons.now groups.now) }
        ensures parts { IfSome result (λ d. d ≡ (persons.now, groups.now)) }
    {
        let names = match names_of(alloc, persons, groups) {
            Ok(names) => Some(names?),
            Err(_) if repeats_name(persons, groups) => return None,
            Err(_) => None,
        };
        Some(Directory {
            persons,
            groups,
            names,
        })
    }

    /// Whether a person has this name.
    pub fn has_person(&self, name: &str) -> bool
        ensures { result ≡ words.is_among self.now.0 name.now }
    {
        match &self.names {
            Some(names) => names.persons.contains(name),
            None => is_among(self.persons, name),
        }
    }

    /// Whether a group has this name.
    pub fn has_group(&self, name: &str) -> bool
        ensures { result ≡ faults.has_group self.now.1 name.now }
    {
        match &self.names {
            Some(names) => names.groups.contains(name),
            None => has_group(self.groups, name),
        }
    }
}

/// The names of the persons and of the groups, or none where a name stands twice.
fn names_of(alloc: Global, persons: &[Text], groups: &[Group]) -> Result<Option<Names>, AllocError>
    ensures some { IfOk result (λ n. is_some n ≡ not (faults.repeats_name persons.now groups.now)) }
    ensures persons { IfOk result (λ o. IfSome o (λ n. IsSetOf persons.now n.persons)) }
    ensures groups { IfOk result (λ o. IfSome o (λ n.
        IsSetOf (faults.group_names groups.now) n.groups)) }
{
    let group_names = group_names(alloc, groups)?;
    let Some(person_set) = distinct(alloc, persons)? else {
        return Ok(None);
    };
    let Some(group_set) = distinct(alloc, group_names.as_slice())? else {
        return Ok(None);
    };
    if has_one_of(&group_set, persons) {
        return Ok(None);
    }
    Ok(Some(Names {
        persons: person_set,
        groups: group_set,
    }))
}

/// Whether the set has one of the texts.
fn has_one_of(set: &HashSet<String>, texts: &[Text]) -> bool
    ensures { result ≡ list_any (contains_text set.now) texts.now }
{
    texts.iter().any(|t| set.contains(t.as_str()))
}

fn group_names(alloc: Global, groups: &[Group]) -> Result<Vec<Text>, AllocError>
    ensures { IfOk result (λ n. n.items ≡ faults.group_names groups.now) }
{
    let mut names = Vec::with_capacity(alloc, groups.len())?;
    for group in groups {
        names.push(group.name.clone()?)?;
    }
    Ok(names)
}

/// Whether two of the persons and groups have one name.
#[tactic(auto, using(crate::proofs::Repeats::repeats_in_either))]
fn repeats_name(persons: &[Text], groups: &[Group]) -> bool
    ensures { result ≡ faults.repeats_name persons.now groups.now }
{
    repeats_text(persons) || repeats_group(groups) || shares_name(persons, groups)
}

/// Whether two groups have one name.
fn repeats_group(groups: &[Group]) -> bool
    ensures { result ≡ words.repeats_text (faults.group_names groups.now) }
{
    for (i, group) in groups.iter().enumerate() {
        if has_group(&groups[i + 1..], group.name.as_str()) {
            return true;
        }
    }
    false
}

/// Whether a person has a group's name.
fn shares_name(persons: &[Text], groups: &[Group]) -> bool
    ensures { result ≡ list_any (faults.has_group groups.now) persons.now }
{
    persons.iter().any(|p| has_group(groups, p.as_str()))
}

/// Whether a group has this name.
pub fn has_group(groups: &[Group], name: &str) -> bool
    ensures { result ≡ faults.has_group groups.now name.now }
{
    groups.iter().any(|g| g.name.as_str() == name)
}
