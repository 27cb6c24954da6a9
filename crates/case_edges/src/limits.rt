//! Commands under a limit on steps.

use crate::asks::Ask;
use crate::calls::limit_steps;
use crate::course::{Course, UNAVAILABLE, rows_left};
use crate::desks::{attached, outcome};
use crate::failure::Failure;
use crate::tables::Opening;
use service_core::Desk;
use sqlite::Connection;
use std::alloc::Global;
use store_core::Backend;

/// How many limits are tried: 1, 2, 4, .. up to 65,536.
const LIMITS: u32 = 17;

/// Tries each command under each limit, and where it is `Unavailable`, once more without one. A
/// line for each limit tells whether all answers and the rows that are left are those of the
/// course, and the last ones whether some command was `Unavailable` under the least limit, and
/// under the greatest.
pub(crate) fn run<S: Backend + Drop, O: Opening<Connection<S>>>(
    alloc: Global,
    out: &mut String,
    opening: &O,
    course: &Course<'_>,
) -> Result<(), Failure> {
    let mut limit = 1u32;
    let mut least = None;
    let mut greatest = None;
    for _ in 0..LIMITS {
        let count = unavailable(alloc, opening, course, limit)?;
        let told = if count.is_some() { "ok" } else { "wrong" };
        writeln!(out, "  {limit}: {told}")?;
        least = least.or(count);
        greatest = count;
        limit = limit.saturating_mul(2);
    }
    tell(out, "least", least)?;
    tell(out, "greatest", greatest)
}

/// Tells whether a limit of no step is as one of one step.
pub(crate) fn run_without<S: Backend + Drop, O: Opening<Connection<S>>>(
    alloc: Global,
    out: &mut String,
    opening: &O,
    course: &Course<'_>,
) -> Result<(), Failure> {
    let none = unavailable(alloc, opening, course, 0)?;
    let one = unavailable(alloc, opening, course, 1)?;
    writeln!(out, "  as under one step: {}", none == one && one.is_some())?;
    Ok(())
}

fn tell(out: &mut String, which: &str, count: Option<u32>) -> Result<(), Failure> {
    let told = match count {
        Some(0) => "none",
        Some(_) => "some",
        None => "wrong",
    };
    writeln!(out, "  Unavailable under the {which}: {told}")?;
    Ok(())
}

/// How many commands are `Unavailable` under the limit. None where an answer or the rows that are
/// left are wrong.
fn unavailable<S: Backend + Drop, O: Opening<Connection<S>>>(
    alloc: Global,
    opening: &O,
    course: &Course<'_>,
    limit: u32,
) -> Result<Option<u32>, Failure> {
    let before = course.before;
    let mut desk = attached(alloc, opening, before.tables, before.settings)?;
    let count = count_on(alloc, course, &mut desk, limit);
    let rows = rows_left(alloc, desk)?;
    if course.rows.as_str() == rows.as_str() {
        count
    } else {
        Ok(None)
    }
}

fn count_on<S: Backend>(
    alloc: Global,
    course: &Course<'_>,
    desk: &mut Desk<S>,
    limit: u32,
) -> Result<Option<u32>, Failure> {
    let mut count = 0u32;
    for (i, ask) in course.asks.iter().enumerate() {
        if is_unavailable(alloc, desk, ask, limit, course, i)? {
            count = count.saturating_add(1);
            let text = outcome(alloc, desk, ask)?;
            if !course.answers(i, text.as_str()) {
                return Ok(None);
            }
        }
    }
    Ok(Some(count))
}

/// Whether the command of that number is `Unavailable` under the limit, which is taken away again.
/// The case ends where it is answered otherwise than in the course.
fn is_unavailable<S: Backend>(
    alloc: Global,
    desk: &mut Desk<S>,
    ask: &Ask,
    limit: u32,
    course: &Course<'_>,
    number: usize,
) -> Result<bool, Failure> {
    limit_steps(desk, Some(limit));
    let text = outcome(alloc, desk, ask);
    limit_steps(desk, None);
    let text = text?;
    if text.as_str() == UNAVAILABLE || course.answers(number, text.as_str()) {
        Ok(text.as_str() == UNAVAILABLE)
    } else {
        Err(Failure::BadLine)
    }
}
