//! Decisions on facts that are written out: what a command comes to, who may show a request, and
//! when one is due.
//!
//! What owns much is given back by `drop`, whose proof stands once; at the end of its scope it
//! would be taken apart for each function's own proof.

mod facts;

use crate::decisions::facts::Written;
use case_text::{Answering, Case, CaseFault, Words, answer_lines, str_of};
use desk_core::{Change, Command, Facts, Refusal, decide, due_of, may_show};
use desk_texts::refusal_text;
use desk_words::{command_of_words, words_of};
use hours_core::minute_text;
use settings_core::Settings;
use std::alloc::Global;

/// Answers each question by the settings, on the facts that the lines before it write out. The
/// questions are, beside the lines of `decisions/facts.rt`:
///
/// | Line | Answer |
/// |---|---|
/// | `decide MOMENT CALLER WORDS ..` | the refusal, or the row that the request gets, and entries |
/// | `may_show PERSON` | whether the person may show the request |
/// | `due_of` | when the request is due |
pub(crate) fn run_case(alloc: Global, out: &mut String, case: &Case<'_>) -> Result<(), CaseFault> {
    match Settings::read(alloc, case.text("settings").as_bytes()) {
        Ok(settings) => {
            let mut deciding = Deciding {
                settings,
                written: Written::new(alloc),
            };
            let answered = answer_lines(alloc, out, &mut deciding, case.text("decisions"));
            drop(deciding);
            answered
        }
        Err(_) => Err(CaseFault::BadLine),
    }
}

/// The settings by which is decided, and the facts so far.
#[derive(Drop)]
struct Deciding {
    settings: Settings,
    written: Written,
}

impl Answering for Deciding {
    type Failure = CaseFault;

    fn answer(&mut self, alloc: Global, out: &mut String, line: &str) -> Result<(), CaseFault> {
        if self.written.take(alloc, line)? {
            return Ok(());
        }
        let mut words = Words::of(line);
        match words.next() {
            "decide" => tell_decided(alloc, out, line, self, words),
            "may_show" => tell_may_show(out, line, self, words.rest),
            "due_of" => tell_due(out, line, self),
            _ => Err(CaseFault::BadLine),
        }
    }
}

fn tell_decided(
    alloc: Global,
    out: &mut String,
    line: &str,
    deciding: &Deciding,
    words: Words<'_>,
) -> Result<(), CaseFault> {
    let mut words = words;
    let (at, caller) = (words.count()?, words.next());
    let command = command_in(alloc, words.rest)?;
    let decided = decided(
        alloc,
        &deciding.settings,
        at,
        caller,
        &deciding.written.facts,
        &command,
    );
    drop(command);
    writeln!(out, "{line}:")?;
    match decided {
        Ok(change) => {
            let told = put_change(out, &change);
            drop(change);
            told
        }
        Err(refusal) => put_refusal(alloc, out, refusal),
    }
}

/// The command that these words spell.
fn command_in(alloc: Global, line: &str) -> Result<Command, CaseFault> {
    let Ok(words) = words_of(alloc, line) else {
        return Err(CaseFault::BadLine);
    };
    match command_of_words(alloc, words.as_slice()) {
        Ok(command) => Ok(command),
        Err(_) => Err(CaseFault::BadLine),
    }
}

/// The call alone, so that no other function carries along all that is said of it.
fn decided(
    alloc: Global,
    settings: &Settings,
    at: u32,
    caller: &str,
    facts: &Facts,
    command: &Command,
) -> Result<Change, Refusal> {
    decide(alloc, settings, at, caller, facts, command)
}

fn put_refusal(alloc: Global, out: &mut String, refusal: Refusal) -> Result<(), CaseFault> {
    let text = refusal_text(alloc, &refusal);
    drop(refusal);
    write!(out, "  {}", text?.as_str())?;
    Ok(())
}

/// Adds the row that the request gets, if it gets one, and how many entries its history does.
fn put_change(out: &mut String, change: &Change) -> Result<(), CaseFault> {
    if let Some(row) = &change.row {
        let (queue, status) = (row.queue.as_str(), row.status.as_str());
        writeln!(out, "  {} {queue} {status}", row.id)?;
    }
    writeln!(out, "  entries: {}", change.entries.as_slice().len())?;
    Ok(())
}

fn tell_may_show(
    out: &mut String,
    line: &str,
    deciding: &Deciding,
    person: &str,
) -> Result<(), CaseFault> {
    let written = &deciding.written;
    match &written.facts.request {
        Some(request) => {
            let watchers = written.watchers.as_slice();
            let may = may_show(&deciding.settings, person, &request.row, watchers);
            writeln!(out, "{line}: {}", if may { "yes" } else { "no" })?;
            Ok(())
        }
        None => Err(CaseFault::BadLine),
    }
}

fn tell_due(out: &mut String, line: &str, deciding: &Deciding) -> Result<(), CaseFault> {
    let facts = &deciding.written.facts;
    match (&facts.queue, &facts.request) {
        (Some(queue), Some(request)) => {
            let stays = facts.stays.as_slice();
            match due_of(&deciding.settings, queue, &request.row, stays) {
                Some(moment) => writeln!(out, "{line}: {}", str_of(&minute_text(moment)))?,
                None => writeln!(out, "{line}: -")?,
            }
            Ok(())
        }
        _ => Err(CaseFault::BadLine),
    }
}
