//! Cases of commands that are tried under limits or on disks that stop, or whose lists and due
//! moments are looked at.

use crate::course::{Course, course_of};
use crate::desks::Before;
use crate::failure::Failure;
use crate::stops::Stop;
use crate::tables::Opening;
use crate::{dues, limits, spoiled, stops, written};
use case_text::Case;
use sqlite::Connection;
use std::alloc::Global;
use store_core::Backend;

/// Writes each line that names a trial of the commands, and what comes of it:
///
/// | Line | Trial |
/// |---|---|
/// | `limits` | each command under limits on steps (`limits.rt`) |
/// | `no_step` | whether a limit of no step is as one of one step |
/// | `dues CALLER` | the due moments of the tables and the shown ones, after each command |
/// | `write_fails MOMENT CALLER WORDS ..`, `write_stops ..` | a list whose writer falters |
/// | `log_stops lost` | the disk of the log stops at each call; what wasn't synced is lost |
/// | `log_stops left` | the same, and all bytes stay as they stand |
/// | `tables_stop lost`, `tables_stop left` | the disk of the database file stops |
/// | each of these with `loaded` behind it | the same, where the commands are loaded |
/// | `opened WORDS` | files that are none are opened (`spoiled.rt`) |
pub(crate) fn run_case<S: Backend + Drop, O: Opening<Connection<S>>>(
    alloc: Global,
    out: &mut String,
    opening: &O,
    case: &Case<'_>,
) -> Result<(), Failure> {
    let before = Before::of(case, "list")?;
    let course = course_of(alloc, opening, before)?;
    let tried = try_all(alloc, out, opening, &course, case.text("trials"));
    drop(course);
    tried
}

fn try_all<S: Backend + Drop, O: Opening<Connection<S>>>(
    alloc: Global,
    out: &mut String,
    opening: &O,
    course: &Course<'_>,
    lines: &str,
) -> Result<(), Failure> {
    for line in lines.lines() {
        writeln!(out, "{line}:")?;
        try_line(alloc, out, opening, course, line)?;
    }
    Ok(())
}

fn try_line<S: Backend + Drop, O: Opening<Connection<S>>>(
    alloc: Global,
    out: &mut String,
    opening: &O,
    course: &Course<'_>,
    line: &str,
) -> Result<(), Failure> {
    let (trial, rest) = line.split_once(' ').unwrap_or((line, ""));
    match trial {
        "limits" => limits::run(alloc, out, opening, course),
        "no_step" => limits::run_without(alloc, out, opening, course),
        "dues" => dues::run(alloc, out, opening, course, rest),
        _ => try_streams(alloc, out, opening, course, trial, rest),
    }
}

fn try_streams<S: Backend + Drop, O: Opening<Connection<S>>>(
    alloc: Global,
    out: &mut String,
    opening: &O,
    course: &Course<'_>,
    trial: &str,
    rest: &str,
) -> Result<(), Failure> {
    match trial {
        "write_fails" => written::run(alloc, out, opening, course, rest, true),
        "write_stops" => written::run(alloc, out, opening, course, rest, false),
        "opened" => spoiled::run(alloc, out, opening, course, rest),
        _ => stops::run(alloc, out, opening, course, Stop::of(trial, rest)?),
    }
}
