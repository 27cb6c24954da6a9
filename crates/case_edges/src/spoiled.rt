//! Files that no run left so.

use crate::course::Course;
use crate::disks::{Schema, Statements, visit_files};
use crate::failure::Failure;
use crate::runs::{Found, Run, Way, found_on, run_on, way_of};
use crate::tables::Opening;
use case_disk::{CaseFiles, End, Start};
use sqlite::Connection;
use std::alloc::{AllocError, Global};
use store_core::Backend;

/// A database file that is none.
const TEXT: &[u8] = b"This is a text and no database.\n";

/// Opens such files, and tells that they are refused, or what is found.
pub(crate) fn run<S: Backend + Drop, O: Opening<Connection<S>>>(
    alloc: Global,
    out: &mut String,
    opening: &O,
    course: &Course<'_>,
    words: &str,
) -> Result<(), Failure> {
    let way = way_of(alloc, opening, course, false)?;
    match found(alloc, opening, &way, words)? {
        Found::Refused => writeln!(out, "  refused")?,
        Found::Other => writeln!(out, "  other rows")?,
        Found::After(count) => writeln!(out, "  found: {count}")?,
    }
    Ok(())
}

/// What is found in the files that the words name: those one of which stops at once, a text for a
/// database file, or files of runs.
fn found<S: Backend + Drop, O: Opening<Connection<S>>>(
    alloc: Global,
    opening: &O,
    way: &Way<'_>,
    words: &str,
) -> Result<Found, Failure> {
    let start = match words {
        "log stops at once" => Start {
            log_calls: 0,
            ..Start::NEW
        },
        "tables stop at once" => Start {
            db_calls: 0,
            ..Start::NEW
        },
        "text" => Start::holding(TEXT),
        _ => return of_runs(alloc, opening, way, words),
    };
    Ok(found_on(alloc, opening, way, start)?)
}

/// What is found in files of runs.
fn of_runs<S: Backend + Drop, O: Opening<Connection<S>>>(
    alloc: Global,
    opening: &O,
    way: &Way<'_>,
    words: &str,
) -> Result<Found, Failure> {
    let ended = ended(alloc, opening, way)?;
    let made = made(alloc, opening)?;
    let start = mixed(&ended, &made, words)?;
    Ok(found_on(alloc, opening, way, start)?)
}

/// Files of a run of all commands that was closed, and so left all in the database file: with half
/// of that file, or with the log of a run of none.
fn mixed<'f>(ended: &'f CaseFiles, made: &'f CaseFiles, words: &str) -> Result<Start<'f>, Failure> {
    match words {
        "half" => Ok(Start {
            db: half_of(ended.db.bytes.as_slice()),
            ..ended.after_kill()
        }),
        "two runs" => Ok(Start {
            db: ended.db.bytes.as_slice(),
            ..made.after_kill()
        }),
        _ => Err(Failure::BadLine),
    }
}

fn half_of(bytes: &[u8]) -> &[u8] {
    let (first, _) = bytes.split_at(bytes.len() / 2);
    first
}

/// New files, in which a run made the tables.
fn made<S: Backend + Drop, O: Opening<Connection<S>>>(
    alloc: Global,
    opening: &O,
) -> Result<CaseFiles, AllocError> {
    visit_files(alloc, opening, Start::NEW, &mut Schema, End::Left)
}

/// The files of a run of all commands, closed.
fn ended<S: Backend + Drop, O: Opening<Connection<S>>>(
    alloc: Global,
    opening: &O,
    way: &Way<'_>,
) -> Result<CaseFiles, AllocError> {
    let start = Start::holding(way.begin.as_slice());
    let Run { files, .. } = run_on(alloc, opening, way, start)?;
    let mut visitor = Statements("");
    let closed = visit_files(
        alloc,
        opening,
        files.after_kill(),
        &mut visitor,
        End::Closed,
    );
    drop(files);
    closed
}
