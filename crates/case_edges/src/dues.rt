//! Due moments in the tables.
//!
//! What owns much is given back by `drop`, whose proof stands once; at the end of its scope it
//! would be taken apart for each function's own proof.

use crate::asks::Ask;
use crate::calls::attach;
use crate::course::Course;
use crate::desks::{attached, outcome};
use crate::failure::Failure;
use crate::reads::{Dated, dated_requests};
use crate::tables::Opening;
use case_text::str_of;
use desk_core::Command;
use hours_core::{Minute, minute_text};
use service_core::Desk;
use sqlite::Connection;
use std::alloc::Global;
use store_core::{Backend, StoreFault};

/// Asks the commands one after the other. After each, the due moments are written that the tables
/// have, and that this person is shown.
pub(crate) fn run<S: Backend + Drop, O: Opening<Connection<S>>>(
    alloc: Global,
    out: &mut String,
    opening: &O,
    course: &Course<'_>,
    caller: &str,
) -> Result<(), Failure> {
    let before = course.before;
    let desk = attached(alloc, opening, before.tables, before.settings)?;
    run_on(alloc, out, desk, course, caller)
}

fn run_on<S: Backend + Drop>(
    alloc: Global,
    out: &mut String,
    desk: Desk<S>,
    course: &Course<'_>,
    caller: &str,
) -> Result<(), Failure> {
    let mut desk = desk;
    for ask in course.asks.iter() {
        desk = told_after(alloc, out, desk, ask, caller)?;
    }
    drop(desk);
    Ok(())
}

/// Asks a command, writes both due moments of each request, and gives a desk over the tables back.
fn told_after<S: Backend + Drop>(
    alloc: Global,
    out: &mut String,
    desk: Desk<S>,
    ask: &Ask,
    caller: &str,
) -> Result<Desk<S>, Failure> {
    let (mut desk, dated) = asked_and_read(alloc, desk, ask)?;
    match tell_read(alloc, out, &mut desk, ask.0, caller, dated) {
        Ok(()) => Ok(desk),
        Err(failure) => {
            drop(desk);
            Err(failure)
        }
    }
}

/// Asks a command, and reads the requests from the tables under the desk.
fn asked_and_read<S: Backend + Drop>(
    alloc: Global,
    desk: Desk<S>,
    ask: &Ask,
) -> Result<(Desk<S>, Result<Vec<Dated>, StoreFault>), Failure> {
    let mut desk = desk;
    if let Err(failure) = outcome(alloc, &mut desk, ask) {
        drop(desk);
        return Err(failure);
    }
    let (mut store, settings) = desk.detach();
    let dated = dated_requests(alloc, &mut store);
    match attach(alloc, store, settings) {
        Ok(desk) => Ok((desk, dated)),
        Err((_, store)) => {
            drop(store);
            drop(dated);
            Err(Failure::NotAttached)
        }
    }
}

fn tell_read<S: Backend>(
    alloc: Global,
    out: &mut String,
    desk: &mut Desk<S>,
    at: u32,
    caller: &str,
    dated: Result<Vec<Dated>, StoreFault>,
) -> Result<(), Failure> {
    let dated = dated?;
    for (request, due) in dated.as_slice() {
        let shown = shown(alloc, desk, at, caller, request.id)?;
        write!(out, "  {}: ", request.id)?;
        put_due(out, *due)?;
        writeln!(out, ", shown {}", shown_due(shown.as_str()))?;
    }
    Ok(())
}

/// What this person is shown of a request.
fn shown<S: Backend>(
    alloc: Global,
    desk: &mut Desk<S>,
    at: u32,
    caller: &str,
    id: u32,
) -> Result<String, Failure> {
    let show = (at, String::from_str(alloc, caller)?, Command::Show { id });
    let text = outcome(alloc, desk, &show);
    drop(show);
    text
}

/// What a shown request has beside `due`.
fn shown_due(text: &str) -> &str {
    for line in text.lines() {
        if let Some(due) = line.strip_prefix("due: ") {
            return due;
        }
    }
    ""
}

/// Adds a due moment, or `-`.
fn put_due(out: &mut String, due: Option<Minute>) -> Result<(), Failure> {
    match due {
        Some(moment) => write!(out, "{}", str_of(&minute_text(moment)))?,
        None => write!(out, "-")?,
    }
    Ok(())
}
