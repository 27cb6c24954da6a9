//! Runs of commands on files.
//!
//! What owns much is given back by `drop`, whose proof stands once; at the end of its scope it
//! would be taken apart for each function's own proof.

use crate::calls::{attach, make_tables, read_settings};
use crate::course::{Course, UNAVAILABLE, rows_after};
use crate::desks::outcome;
use crate::disks::{Visit, tables_of, visit_files};
use crate::failure::Failure;
use crate::loads::loaded_on;
use crate::rows::rows_of;
use crate::tables::Opening;
use case_disk::{CaseFiles, End, Start};
use service_core::Desk;
use sqlite::Connection;
use std::alloc::{AllocError, Global};
use store_core::{Backend, Store};

/// A course, and the rows after each number of its commands, which are none the same.
#[derive(Drop)]
pub(crate) struct Way<'c> {
    pub(crate) course: &'c Course<'c>,
    /// The bytes of the database file on which it begins.
    pub(crate) begin: Vec<u8>,
    rows: Vec<String>,
    /// Whether the commands are loaded, or else asked one by one.
    loads: bool,
}

/// What is found where files are opened.
#[derive(Clone, Copy, PartialEq, Eq)]
pub(crate) enum Found {
    /// They can't be opened, or the tables can't be made.
    Refused,
    /// Rows that no number of commands makes.
    Other,
    /// The rows after so many commands.
    After(usize),
}

/// What comes of a run on files.
#[derive(Drop)]
pub(crate) struct Run {
    pub(crate) files: CaseFiles,
    pub(crate) found: Found,
    /// How many commands are answered. None where an answer isn't the one in memory.
    pub(crate) reached: Option<usize>,
}

/// The way of a course.
pub(crate) fn way_of<'c, S: Backend + Drop, O: Opening<Connection<S>>>(
    alloc: Global,
    opening: &O,
    course: &'c Course<'c>,
    loads: bool,
) -> Result<Way<'c>, Failure> {
    let mut rows = Vec::new(alloc);
    for count in 0..=course.asks.len() {
        rows.push(rows_after(alloc, opening, course, count)?)?;
    }
    let begin = tables_of(alloc, opening, course.before.tables)?;
    Ok(Way {
        course,
        begin,
        rows,
        loads,
    })
}

/// Opens the files, and runs the commands that didn't make what is found.
pub(crate) fn run_on<S: Backend + Drop, O: Opening<Connection<S>>>(
    alloc: Global,
    opening: &O,
    way: &Way<'_>,
    start: Start<'_>,
) -> Result<Run, AllocError> {
    let mut running = Running {
        way,
        found: Found::Refused,
        reached: Some(0),
    };
    let files = visit_files(alloc, opening, start, &mut running, End::Left)?;
    Ok(Run {
        files,
        found: running.found,
        reached: running.reached,
    })
}

/// A run on a connection: what is found there, and how many commands are answered.
#[derive(Drop)]
struct Running<'w, 'c> {
    way: &'w Way<'c>,
    found: Found,
    reached: Option<usize>,
}

impl Visit for Running<'_, '_> {
    fn on<S: Backend>(&mut self, alloc: Global, conn: Connection<S>) -> Connection<S> {
        if !conn.is_autocommit() {
            return conn;
        }
        let mut store = Store::adopt(conn);
        self.found = found_in(alloc, self.way, &mut store);
        let from = match self.found {
            Found::After(count) => count,
            _ => 0,
        };
        let (store, reached) = follow(alloc, self.way, store, from);
        self.reached = reached;
        store.release()
    }
}

/// Goes on with what the files hold: what is found there, and whether all commands are done then
/// and leave the rows that they leave in memory.
pub(crate) fn go_on<S: Backend + Drop, O: Opening<Connection<S>>>(
    alloc: Global,
    opening: &O,
    way: &Way<'_>,
    start: Start<'_>,
) -> Result<(Found, bool), AllocError> {
    let count = way.course.asks.len();
    let Run {
        files,
        found,
        reached,
    } = run_on(alloc, opening, way, start)?;
    let last = found_on(alloc, opening, way, files.after_kill());
    drop(files);
    Ok((
        found,
        reached == Some(count) && last? == Found::After(count),
    ))
}

/// What is found where the files are opened.
pub(crate) fn found_on<S: Backend + Drop, O: Opening<Connection<S>>>(
    alloc: Global,
    opening: &O,
    way: &Way<'_>,
    start: Start<'_>,
) -> Result<Found, AllocError> {
    let Run { files, found, .. } = run_on(alloc, opening, way, start)?;
    drop(files);
    Ok(found)
}

/// Makes the tables that are missing, and tells what they hold.
fn found_in<S: Backend>(alloc: Global, way: &Way<'_>, store: &mut Store<S>) -> Found {
    if make_tables(alloc, store).is_err() {
        return Found::Refused;
    }
    match rows_of(alloc, store) {
        Ok(rows) => way.place(rows.as_str()),
        Err(_) => Found::Refused,
    }
}

/// Attaches the settings, and asks the commands from that one on.
fn follow<S: Backend>(
    alloc: Global,
    way: &Way<'_>,
    store: Store<S>,
    from: usize,
) -> (Store<S>, Option<usize>) {
    let course = way.course;
    let Ok(settings) = read_settings(alloc, course.before.settings) else {
        return (store, None);
    };
    match attach(alloc, store, settings) {
        Ok(desk) => follow_on(alloc, way, desk, from),
        Err((_, store)) => (store, Some(from)),
    }
}

fn follow_on<S: Backend>(
    alloc: Global,
    way: &Way<'_>,
    desk: Desk<S>,
    from: usize,
) -> (Store<S>, Option<usize>) {
    let mut desk = desk;
    let course = way.course;
    let reached = if way.loads {
        loaded_on(alloc, &mut desk, course.before.commands, from)
    } else {
        reached_on(alloc, course, &mut desk, from)
    };
    let (store, settings) = desk.detach();
    drop(settings);
    (store, reached)
}

/// Asks the commands from that one on: how many are answered. The first one that isn't has to be
/// `Unavailable`, and those after it refused, since a refusal may need no disk. None where an
/// answer is another one.
fn reached_on<S: Backend>(
    alloc: Global,
    course: &Course<'_>,
    desk: &mut Desk<S>,
    from: usize,
) -> Option<usize> {
    let mut reached = from;
    for (number, ask) in course.asks.iter().enumerate().skip(from) {
        let Ok(text) = outcome(alloc, desk, ask) else {
            return None;
        };
        if number == reached && course.answers(number, text.as_str()) {
            reached = reached.saturating_add(1);
        } else if number == reached && text.as_str() != UNAVAILABLE {
            return None;
        } else if !text.as_str().starts_with("refused ") {
            return None;
        }
    }
    Some(reached)
}

impl Way<'_> {
    /// How many commands make these rows.
    fn place(&self, rows: &str) -> Found {
        for (count, made) in self.rows.iter().enumerate() {
            if made.as_str() == rows {
                return Found::After(count);
            }
        }
        Found::Other
    }
}
