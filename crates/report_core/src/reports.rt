//! The three reports: a queue's list, the requests that are late, and the workload.
//!
//! Each is told of rows, with their due moments, to a person, whose watches are handed in, in the
//! order of their requests. Queues stand in the order of their names.
ghost use Rattle.std.specs.Prelude.{◌≡◌, IfOk};
ghost use Rattle.report_core.specs.Rows.{QueuesRise, RowsRise, WatchesRise, late_lines_shown};
ghost use Rattle.report_core.specs.Rows.{lines_shown, loads_by, shown_by};

use crate::late::late_lines;
use crate::lines::lines_of;
use crate::load::loads;
use crate::showing::shown;
use desk_model::{LateLine, Line, Load, QueueRow, RequestRow, Watcher};
use hours_core::Minute;
use settings_core::Settings;
use std::alloc::{AllocError, Global};
use text_core::Sequence;

/// The list of a queue, of the rows of its requests: a line for each that the person may show, in
/// the order of the rows. `AllocError` where memory is refused.
pub fn list(
    alloc: Global,
    settings: &Settings,
    person: &str,
    watches: &[Watcher],
    rows: Vec<(RequestRow, Option<Minute>)>,
) -> Result<Sequence<Line>, AllocError>
    ensures { WatchesRise watches.now
        → IfOk result (λ lines. lines
        ≡ lines_shown settings.now person.now watches.now rows.items) }
{
    let lines = lines_of(alloc, settings, person, watches, rows)?;
    Ok(Sequence::from(lines))
}

/// A line for each request that the person may show and that was due before the moment, in the
/// order of the rows. `AllocError` where memory is refused.
pub fn overdue(
    alloc: Global,
    at: u32,
    settings: &Settings,
    person: &str,
    watches: &[Watcher],
    rows: Vec<(RequestRow, Option<Minute>)>,
) -> Result<Sequence<LateLine>, AllocError>
    ensures { WatchesRise watches.now
        → IfOk result (λ lines. lines
        ≡ late_lines_shown at settings.now person.now watches.now rows.items) }
{
    let lines = late_lines(alloc, at, settings, person, watches, rows)?;
    Ok(Sequence::from(lines))
}

/// What each owner has of the requests that the person may show and that aren't inactive, and how
/// much of it was due before the moment: nobody first, then in the order of the names. The rows
/// stand in the order of their numbers. `AllocError` where memory is refused.
pub fn workload(
    alloc: Global,
    at: u32,
    settings: &Settings,
    person: &str,
    watches: &[Watcher],
    queues: &[QueueRow],
    rows: Vec<(RequestRow, Option<Minute>)>,
) -> Result<Sequence<Load>, AllocError>
    ensures { WatchesRise watches.now → QueuesRise queues.now → RowsRise rows.items
        → IfOk result (λ told. told ≡ loads_by at settings.now queues.now
        (shown_by settings.now person.now watches.now rows.items)) }
{
    let shown = shown(settings, person, watches, rows);
    Ok(Sequence::from(loads(alloc, at, settings, queues, shown.as_slice())?))
}
