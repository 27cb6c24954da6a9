//! The parts of people, gathered from the lines of a case.

use crate::words::texts_of;
use case_text::{CaseFault, Words};
use rights_core::{Grant, Group, People, Role, Subject};
use std::alloc::{AllocError, Global};
use text_core::{Text, Texts};

/// The parts of people.
#[derive(Drop)]
pub(crate) struct HouseParts {
    persons: Texts,
    groups: Vec<Group>,
    grants: Vec<Grant>,
}

impl HouseParts {
    /// No persons, groups or grants.
    pub(crate) fn new(alloc: Global) -> HouseParts {
        HouseParts {
            persons: Texts::from(Vec::new(alloc)),
            groups: Vec::new(alloc),
            grants: Vec::new(alloc),
        }
    }

    /// Takes a line that gives a part, and tells whether it was one: `persons NAMES..`, which are
    /// all, `group NAME MEMBERS..` or `grant RIGHT SUBJECT [QUEUE]`.
    pub(crate) fn take(&mut self, alloc: Global, line: &str) -> Result<bool, CaseFault> {
        let mut words = Words::of(line);
        match words.next() {
            "persons" => self.persons = texts_of(alloc, words.rest)?,
            "group" => self.groups.push(group(alloc, words)?)?,
            "grant" => self.grants.push(grant(alloc, words)?)?,
            _ => return Ok(false),
        }
        Ok(true)
    }

    /// The people of the parts. Writes that they are built, or the fault.
    pub(crate) fn build(
        &self,
        alloc: Global,
        out: &mut String,
    ) -> Result<Option<People>, CaseFault> {
        let persons = self.persons.as_slice();
        match People::build(
            alloc,
            persons,
            self.groups.as_slice(),
            self.grants.as_slice(),
        ) {
            Ok(people) => {
                writeln!(out, "build: {} persons", persons.len())?;
                Ok(Some(people))
            }
            Err(fault) => {
                writeln!(out, "build: {} {}", fault.number(), fault.name())?;
                Ok(None)
            }
        }
    }
}

fn group(alloc: Global, words: Words<'_>) -> Result<Group, AllocError> {
    let mut words = words;
    let name = Text::new(alloc, words.next())?;
    let members = texts_of(alloc, words.rest)?;
    Ok(Group { name, members })
}

fn grant(alloc: Global, words: Words<'_>) -> Result<Grant, CaseFault> {
    let mut words = words;
    let right = words.next();
    let subject = subject(alloc, words.next())?;
    let queue = match words.rest {
        "" => None,
        queue => Some(Text::new(alloc, queue)?),
    };
    let right = Text::new(alloc, right)?;
    Ok(Grant {
        right,
        subject,
        queue,
    })
}

/// `everyone`, `person:NAME`, `group:NAME` or a role.
fn subject(alloc: Global, word: &str) -> Result<Subject, CaseFault> {
    match word.split_once(':') {
        Some(("person", name)) => Ok(Subject::Person(Text::new(alloc, name)?)),
        Some(("group", name)) => Ok(Subject::Group(Text::new(alloc, name)?)),
        Some(_) => Err(CaseFault::BadLine),
        None => match word {
            "everyone" => Ok(Subject::Everyone),
            "owner" => Ok(Subject::Role(Role::Owner)),
            "requestor" => Ok(Subject::Role(Role::Requestor)),
            "cc" => Ok(Subject::Role(Role::Cc)),
            "admincc" => Ok(Subject::Role(Role::AdminCc)),
            _ => Err(CaseFault::BadLine),
        },
    }
}
