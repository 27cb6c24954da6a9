//! A list that is written row by row, to a writer that falters at each of its calls in turn.

use crate::asks::{Ask, ask_of};
use crate::calls::write_list;
use crate::course::Course;
use crate::desks::{attached, outcome};
use crate::failure::Failure;
use crate::streams::Faltering;
use crate::tables::Opening;
use service_core::{Desk, StreamFault};
use sqlite::Connection;
use std::alloc::Global;
use store_core::Backend;

/// More bytes than a list has.
const MOST: u32 = 10_000;

/// What came of a list.
#[derive(Clone, Copy)]
enum Tried {
    /// It was written whole.
    Whole,
    /// As many bytes of it were written as the writer took, and the failed write was told.
    Cut,
    /// Neither.
    Wrong,
}

/// Writes the list that a line `MOMENT CALLER WORDS ..` asks for, after all commands, to a writer
/// that takes a byte at a time and falters after none, after one, and so on: its write fails, or it
/// takes none. So many bytes of the list are to be written, and `Write` told. Tells where that is
/// wrong, and how many bytes the list has.
pub(crate) fn run<S: Backend + Drop, O: Opening<Connection<S>>>(
    alloc: Global,
    out: &mut String,
    opening: &O,
    course: &Course<'_>,
    line: &str,
    fails: bool,
) -> Result<(), Failure> {
    let before = course.before;
    let mut desk = attached(alloc, opening, before.tables, before.settings)?;
    let tried = try_after(alloc, out, course, &mut desk, line, fails);
    drop(desk);
    tried
}

fn try_after<S: Backend>(
    alloc: Global,
    out: &mut String,
    course: &Course<'_>,
    desk: &mut Desk<S>,
    line: &str,
    fails: bool,
) -> Result<(), Failure> {
    for ask in course.asks.iter() {
        drop(outcome(alloc, desk, ask)?);
    }
    let ask = ask_of(alloc, line)?;
    try_each(alloc, out, desk, &ask, fails)
}

fn try_each<S: Backend>(
    alloc: Global,
    out: &mut String,
    desk: &mut Desk<S>,
    ask: &Ask,
    fails: bool,
) -> Result<(), Failure> {
    let whole = outcome(alloc, desk, ask)?;
    for count in 0..MOST {
        match try_once(alloc, desk, ask, whole.as_bytes(), count, fails) {
            Tried::Whole => {
                writeln!(out, "  written whole by {count} writes")?;
                return Ok(());
            }
            Tried::Cut => {}
            Tried::Wrong => writeln!(out, "  wrong after {count} writes")?,
        }
    }
    Err(Failure::Endless)
}

/// Writes the list to a writer that falters after so many writes.
fn try_once<S: Backend>(
    alloc: Global,
    desk: &mut Desk<S>,
    ask: &Ask,
    whole: &[u8],
    count: u32,
    fails: bool,
) -> Tried {
    let mut writer = Faltering::after(alloc, count, fails);
    let ended = write_list(alloc, desk, ask, &mut writer);
    let taken = writer.taken.as_slice();
    let is_cut = taken.len() == count as usize && whole.starts_with(taken);
    match ended {
        Some(Ok(())) if taken == whole => Tried::Whole,
        Some(Err(StreamFault::Write)) if is_cut => Tried::Cut,
        _ => Tried::Wrong,
    }
}
