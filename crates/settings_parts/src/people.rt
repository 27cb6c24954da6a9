//! Persons, groups, grants and tokens.

ghost use Rattle.std.specs.Prelude.{◌≡◌, ◌++◌, IfOk, map};
ghost use Rattle.toml.specs.View.{array_view, table_view};
ghost use Rattle.settings_form.specs.Grantee as form;
ghost use Rattle.settings_parts.specs.PeopleParts as spec;

use crate::values::{
    array_at, has_key, table_at, text_at, text_of, text_or_empty, texts_at, texts_of,
};
use rights_core::{Grant, Group, Parts, Subject, right};
use settings_form::grantee::{Grantee, grantee_of};
use std::alloc::{AllocError, Global};
use text_core::{Sequence, Text, Texts};
use toml::Table;
use toml::value::Array;

/// The one person of a text that doesn't speak of people.
const ROOT: &str = "root";

/// A token and the person whom it stands for.
#[derive(Drop)]
pub struct Token {
    pub token: Text,
    pub person: Text,
}

/// Whom a grant is for, with the name as a text of its own.
fn subject_of(alloc: Global, grantee: Grantee<'_>) -> Result<Subject, AllocError>
    ensures { IfOk result (λ s. s ≡ form.subject_of grantee.entry) }
{
    match grantee {
        Grantee::Everyone => Ok(Subject::Everyone),
        Grantee::Role(role) => Ok(Subject::Role(role)),
        Grantee::Person(name) => Ok(Subject::Person(Text::new(alloc, name)?)),
        Grantee::Group(name) => Ok(Subject::Group(Text::new(alloc, name)?)),
    }
}

/// One grant for each right.
fn push_grants(
    subject: &Subject,
    queue: &Option<Text>,
    rights: &[Text],
    found: &mut Vec<Grant>,
) -> Result<(), AllocError>
    ensures { IfOk result (λ _. found.new.items
        ≡ found.old.items ++ map (spec.grant_of subject.now queue.now) rights.now) }
{
    for right in rights {
        found.push(Grant {
            right: right.clone()?,
            subject: subject.clone()?,
            queue: queue.clone()?,
        })?;
    }
    Ok(())
}

/// Adds the grants that a table makes: one for each of its rights.
pub fn add_grants(alloc: Global, table: &Table, found: &mut Vec<Grant>) -> Result<(), AllocError>
    ensures { IfOk result (λ _. found.new.items
        ≡ found.old.items ++ spec.grants_at (table_view table.now)) }
{
    let to = text_or_empty(alloc, table, "to")?;
    match grantee_of(to.as_str()) {
        Some(grantee) => add_grants_to(alloc, grantee, table, found),
        None => Ok(()),
    }
}

/// One grant for each right of the table.
fn add_grants_to(
    alloc: Global,
    grantee: Grantee<'_>,
    table: &Table,
    found: &mut Vec<Grant>,
) -> Result<(), AllocError>
    ensures { IfOk result (λ _. found.new.items
        ≡ found.old.items ++ spec.grants_to (form.subject_of grantee.entry) (table_view table.now)) }
{
    let subject = subject_of(alloc, grantee)?;
    let queue = text_at(alloc, table, "queue")?;
    let rights = texts_at(alloc, table, "rights")?;
    push_grants(&subject, &queue, rights.as_slice(), found)
}

/// The grants of a list of tables.
fn grants_in(alloc: Global, list: &Array) -> Result<Vec<Grant>, AllocError>
    ensures { IfOk result (λ v. v.items ≡ spec.grants_in (array_view list.now)) }
{
    let mut found = Vec::new(alloc);
    for value in list {
        if let Some(table) = value.as_table() {
            add_grants(alloc, table, &mut found)?;
        }
    }
    Ok(found)
}

fn grants_of(alloc: Global, table: &Table) -> Result<Vec<Grant>, AllocError>
    ensures { IfOk result (λ v. v.items ≡ spec.grants_of (table_view table.now)) }
{
    match array_at(table, "grant") {
        Some(list) => grants_in(alloc, list),
        None => Ok(Vec::new(alloc)),
    }
}

/// The groups of a table.
fn groups_in(alloc: Global, table: &Table) -> Result<Vec<Group>, AllocError>
    ensures { IfOk result (λ v. v.items ≡ spec.groups_in (table_view table.now)) }
{
    let mut found = Vec::new(alloc);
    for (name, value) in table.iter() {
        found.push(Group {
            name: Text::new(alloc, name.as_str())?,
            members: texts_of(alloc, value)?,
        })?;
    }
    Ok(found)
}

fn groups_of(alloc: Global, table: &Table) -> Result<Vec<Group>, AllocError>
    ensures { IfOk result (λ v. v.items ≡ spec.groups_of (table_view table.now)) }
{
    match table_at(table, "groups") {
        Some(groups) => groups_in(alloc, groups),
        None => Ok(Vec::new(alloc)),
    }
}

fn has_people(table: &Table) -> bool
    ensures { result ≡ spec.has_people (table_view table.now) }
{
    has_key(table, "persons") || has_key(table, "groups") || has_key(table, "grant")
}

/// The person `root` alone, who holds every right on every queue.
#[tactic(auto, unfolding(rights_core::specs::Right::super_user))]
fn root_alone(alloc: Global) -> Result<Parts, AllocError>
    ensures { IfOk result (λ p. p ≡ spec.root_alone) }
{
    let grant = Grant {
        right: Text::new(alloc, right::SUPER_USER)?,
        subject: Subject::Person(Text::new(alloc, ROOT)?),
        queue: None,
    };
    Ok(Parts {
        persons: Texts::from(vec![in alloc; Text::new(alloc, ROOT)?]?),
        groups: Sequence::from(Vec::new(alloc)),
        grants: Sequence::from(vec![in alloc; grant]?),
    })
}

fn people_stated(alloc: Global, table: &Table) -> Result<Parts, AllocError>
    ensures { IfOk result (λ p. p ≡ spec.people_stated (table_view table.now)) }
{
    Ok(Parts {
        persons: texts_at(alloc, table, "persons")?,
        groups: Sequence::from(groups_of(alloc, table)?),
        grants: Sequence::from(grants_of(alloc, table)?),
    })
}

/// The persons, groups and grants of a settings text: `root` alone, who holds every right, where it
/// has none of them.
pub fn people_in(alloc: Global, table: &Table) -> Result<Parts, AllocError>
    ensures { IfOk result (λ p. p ≡ spec.people_in (table_view table.now)) }
{
    if has_people(table) {
        people_stated(alloc, table)
    } else {
        root_alone(alloc)
    }
}

/// The tokens of a table.
fn tokens_in(alloc: Global, table: &Table) -> Result<Vec<Token>, AllocError>
    ensures { IfOk result (λ v. v.items ≡ spec.tokens_in (table_view table.now)) }
{
    let mut found = Vec::new(alloc);
    for (token, value) in table.iter() {
        found.push(Token {
            token: Text::new(alloc, token.as_str())?,
            person: text_of(alloc, value)?,
        })?;
    }
    Ok(found)
}

/// The tokens of a settings text.
pub fn tokens_of(alloc: Global, table: &Table) -> Result<Vec<Token>, AllocError>
    ensures { IfOk result (λ v. v.items ≡ spec.tokens_of (table_view table.now)) }
{
    match table_at(table, "tokens") {
        Some(tokens) => tokens_in(alloc, tokens),
        None => Ok(Vec::new(alloc)),
    }
}
