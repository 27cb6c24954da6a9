//! Commands on tables whose disk stops.

use crate::course::Course;
use crate::failure::Failure;
use crate::runs::{Found, Run, Way, go_on, run_on, way_of};
use crate::tables::Opening;
use case_disk::{CaseFiles, Start};
use sqlite::Connection;
use std::alloc::Global;
use store_core::Backend;

/// More calls than a disk is asked.
const MOST: u64 = 1_000;

/// Where a disk stops, and what it leaves.
#[derive(Clone, Copy)]
pub struct Stop {
    /// The log's disk stops, or else that of the database file.
    pub is_log: bool,
    /// What wasn't synced is lost, or else the bytes stay as they stand.
    pub loses: bool,
    /// The commands are loaded, or else asked one by one.
    pub loads: bool,
}

/// Stops a disk at its first call, at its second, and so on, until a run meets no stop. Each time
/// the files are opened again. What is found then are the tables after the commands that were
/// answered, or after one more, and the others go on from there to their answers and rows; else it
/// is wrong. A line is written wherever the number of commands that are found isn't that of the stop
/// before, and at the end whether there are calls.
pub(crate) fn run<S: Backend + Drop, O: Opening<Connection<S>>>(
    alloc: Global,
    out: &mut String,
    opening: &O,
    course: &Course<'_>,
    stop: Stop,
) -> Result<(), Failure> {
    let way = way_of(alloc, opening, course, stop.loads)?;
    let count = course.asks.len();
    let mut last = None;
    for calls in 0..MOST {
        let (answered, found) = stopped(alloc, opening, &way, stop, calls)?;
        if found.is_none() || found != last {
            tell(out, calls, found)?;
        }
        if answered == Some(count) {
            writeln!(out, "  calls: {}", if calls > 0 { "some" } else { "none" })?;
            return Ok(());
        }
        last = found;
    }
    Err(Failure::Endless)
}

fn tell(out: &mut String, calls: u64, found: Option<usize>) -> Result<(), Failure> {
    match found {
        Some(count) => writeln!(out, "  found: {count}")?,
        None => writeln!(out, "  wrong after {calls} calls")?,
    }
    Ok(())
}

/// Runs the commands on files of the course that stop after so many calls, and goes on with what
/// they leave: how many commands were answered before the stop, and how many are found after it, or
/// none where those aren't the ones that were answered, or one more.
fn stopped<S: Backend + Drop, O: Opening<Connection<S>>>(
    alloc: Global,
    opening: &O,
    way: &Way<'_>,
    stop: Stop,
    calls: u64,
) -> Result<(Option<usize>, Option<usize>), Failure> {
    let start = stop.start(way.begin.as_slice(), calls);
    let Run { files, reached, .. } = run_on(alloc, opening, way, start)?;
    let gone_on = go_on(alloc, opening, way, stop.found(&files));
    drop(files);
    match (reached, gone_on?) {
        (Some(answered), (Found::After(count), true))
            if count == answered || count == answered.saturating_add(1) => {
            Ok((reached, Some(count)))
        }
        _ => Ok((reached, None)),
    }
}

impl Stop {
    /// The stop that these words name: `log_stops` or `tables_stop`, then `lost` or `left`, and
    /// `loaded` or nothing.
    pub fn of(trial: &str, rest: &str) -> Result<Stop, Failure> {
        let (after, how) = rest.split_once(' ').unwrap_or((rest, ""));
        if trial != "log_stops" && trial != "tables_stop" {
            return Err(Failure::BadLine);
        }
        Ok(Stop {
            is_log: trial == "log_stops",
            loses: after == "lost",
            loads: how == "loaded",
        })
    }

    /// Files with these tables, one of which stops after so many calls.
    pub fn start(self, tables: &[u8], calls: u64) -> Start<'_> {
        let start = Start::holding(tables);
        if self.is_log {
            Start {
                log_calls: calls,
                ..start
            }
        } else {
            Start {
                db_calls: calls,
                ..start
            }
        }
    }

    /// The files as they are found after the stop.
    pub fn found(self, files: &CaseFiles) -> Start<'_> {
        if self.loses {
            files.after_crash()
        } else {
            files.after_kill()
        }
    }
}
