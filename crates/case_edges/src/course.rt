//! A course: tables, settings and commands, with what they answer and leave in memory.
//!
//! What owns much is given back by `drop`, whose proof stands once; at the end of its scope it
//! would be taken apart for each function's own proof.

use crate::asks::{Ask, asks_of};
use crate::desks::{Before, attached, outcome};
use crate::failure::Failure;
use crate::rows::rows_of;
use crate::tables::Opening;
use service_core::Desk;
use sqlite::Connection;
use std::alloc::Global;
use store_core::Backend;

/// What a command answers where memory or the store refused.
pub(crate) const UNAVAILABLE: &str = "refused 16 Unavailable\n";

/// Settings and commands on a desk.
#[derive(Drop)]
pub(crate) struct Course<'c> {
    /// The statements that make its tables, none for those of a new desk, its settings and its
    /// commands.
    pub(crate) before: Before<'c>,
    pub(crate) asks: Vec<Ask>,
    /// The text of each outcome.
    outcomes: Vec<String>,
    /// The rows that the commands leave.
    pub(crate) rows: String,
}

/// The course of commands.
pub(crate) fn course_of<'c, S: Backend + Drop, O: Opening<Connection<S>>>(
    alloc: Global,
    opening: &O,
    before: Before<'c>,
) -> Result<Course<'c>, Failure> {
    let asks = asks_of(alloc, before.commands)?;
    let (outcomes, rows) = run_of(alloc, opening, before, asks.as_slice())?;
    Ok(Course {
        before,
        asks,
        outcomes,
        rows,
    })
}

/// The outcomes of the commands, and the rows that they leave.
fn run_of<S: Backend + Drop, O: Opening<Connection<S>>>(
    alloc: Global,
    opening: &O,
    before: Before<'_>,
    asks: &[Ask],
) -> Result<(Vec<String>, String), Failure> {
    let mut desk = attached(alloc, opening, before.tables, before.settings)?;
    let outcomes = outcomes_on(alloc, &mut desk, asks);
    let rows = rows_left(alloc, desk)?;
    Ok((outcomes?, rows))
}

/// The rows that the first of the commands leave, so many of them.
pub(crate) fn rows_after<S: Backend + Drop, O: Opening<Connection<S>>>(
    alloc: Global,
    opening: &O,
    course: &Course<'_>,
    count: usize,
) -> Result<String, Failure> {
    let asks = course.asks.as_slice().get(..count);
    let (_, rows) = run_of(alloc, opening, course.before, asks.ok_or(Failure::BadLine)?)?;
    Ok(rows)
}

fn outcomes_on<S: Backend>(
    alloc: Global,
    desk: &mut Desk<S>,
    asks: &[Ask],
) -> Result<Vec<String>, Failure> {
    let mut outcomes = Vec::new(alloc);
    for ask in asks {
        outcomes.push(outcome(alloc, desk, ask)?)?;
    }
    Ok(outcomes)
}

/// The rows of a desk that is given up.
pub(crate) fn rows_left<S: Backend + Drop>(
    alloc: Global,
    desk: Desk<S>,
) -> Result<String, Failure> {
    let (store, settings) = desk.detach();
    drop(settings);
    let mut store = store;
    let rows = rows_of(alloc, &mut store);
    drop(store);
    rows
}

impl Course<'_> {
    /// Whether that is what the command of this number answers.
    pub(crate) fn answers(&self, number: usize, text: &str) -> bool {
        match self.outcomes.get(number) {
            Some(outcome) => outcome.as_str() == text,
            None => false,
        }
    }
}
