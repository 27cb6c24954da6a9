//! Facts that lines write out.

use crate::words::moment;
use case_text::{CaseFault, Words};
use desk_core::{Facts, QueueRow, RequestRow, SeenRequest, Turn, WatchRole, Watcher};
use hours_core::{Minute, Stay};
use std::alloc::{AllocError, Global};
use text_core::{Sequence, Text, Texts};

/// What stands where there is no name.
const NONE: &str = "-";

/// The facts so far, and who watches the request.
#[derive(Drop)]
pub(crate) struct Written {
    pub(crate) facts: Facts,
    pub(crate) watchers: Vec<Watcher>,
}

impl Written {
    /// No facts.
    pub(crate) fn new(alloc: Global) -> Written {
        Written {
            facts: no_facts(alloc),
            watchers: Vec::new(alloc),
        }
    }

    /// Takes a line that writes facts out, and tells whether it was one; `-` stands for no level:
    ///
    /// | Line | Facts |
    /// |---|---|
    /// | `nothing` | none |
    /// | `queue NAME LIFECYCLE LEVEL` | a queue, the one that there is |
    /// | `request ID QUEUE STATUS LEVEL MOMENT PERSON` | a request, which the person made then |
    pub(crate) fn take(&mut self, alloc: Global, line: &str) -> Result<bool, CaseFault> {
        let mut words = Words::of(line);
        match words.next() {
            "nothing" => self.facts = no_facts(alloc),
            "queue" => {
                self.facts.queue = Some(queue(alloc, words)?);
                self.facts.queue_count = 1;
            }
            "request" => self.take_request(alloc, words)?,
            _ => return Ok(false),
        }
        Ok(true)
    }

    fn take_request(&mut self, alloc: Global, words: Words<'_>) -> Result<(), CaseFault> {
        let mut words = words;
        let (id, queue, status) = (words.count()?, words.next(), words.next());
        let (level, made) = (words.next(), moment(words.next())?);
        let person = words.rest;
        self.watchers = watchers(alloc, id, person)?;
        self.facts.stays = stays(alloc, status, made)?;
        self.facts.request = Some(SeenRequest {
            row: row(alloc, id, (queue, status, level), made)?,
            requestors: one_of(alloc, person)?,
            cc: Texts::from(Vec::new(alloc)),
            admin_cc: Texts::from(Vec::new(alloc)),
            entry_count: 1,
        });
        self.facts.request_count = 1;
        Ok(())
    }
}

fn no_facts(alloc: Global) -> Facts {
    Facts {
        queue: None,
        queue_count: 0,
        request_count: 0,
        request: None,
        stays: Sequence::from(Vec::new(alloc)),
        other: None,
        is_linked: false,
        dependencies: Sequence::from(Vec::new(alloc)),
    }
}

fn queue(alloc: Global, words: Words<'_>) -> Result<QueueRow, AllocError> {
    let mut words = words;
    Ok(QueueRow {
        name: Text::new(alloc, words.next())?,
        lifecycle: Text::new(alloc, words.next())?,
        level: optional(alloc, words.next())?,
    })
}

fn optional(alloc: Global, word: &str) -> Result<Option<Text>, AllocError> {
    if word == NONE {
        Ok(None)
    } else {
        Ok(Some(Text::new(alloc, word)?))
    }
}

/// A request of a queue with a status and a level that nobody owns.
fn row(
    alloc: Global,
    id: u32,
    (queue, status, level): (&str, &str, &str),
    made: Minute,
) -> Result<RequestRow, AllocError> {
    Ok(RequestRow {
        id,
        queue: Text::new(alloc, queue)?,
        subject: Text::new(alloc, "printer")?,
        status: Text::new(alloc, status)?,
        owner: None,
        level: optional(alloc, level)?,
        created: made,
        opened: made,
        turn: Turn::Desk,
        since: made,
    })
}

fn one_of(alloc: Global, person: &str) -> Result<Texts, AllocError> {
    let mut persons = Vec::new(alloc);
    persons.push(Text::new(alloc, person)?)?;
    Ok(Texts::from(persons))
}

/// The person as the request's requestor.
fn watchers(alloc: Global, id: u32, person: &str) -> Result<Vec<Watcher>, AllocError> {
    let mut watchers = Vec::new(alloc);
    watchers.push(Watcher {
        id,
        role: WatchRole::Requestor,
        person: Text::new(alloc, person)?,
    })?;
    Ok(watchers)
}

/// The stay in the status since then.
fn stays(alloc: Global, status: &str, from: Minute) -> Result<Sequence<Stay>, AllocError> {
    let mut stays = Vec::new(alloc);
    stays.push(Stay {
        status: Text::new(alloc, status)?,
        from,
        until: None,
    })?;
    Ok(Sequence::from(stays))
}
