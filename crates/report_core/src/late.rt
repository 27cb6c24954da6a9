//! The requests that are late.
//!
//! What owns much is given back by `drop`, whose proof stands once; at the end of its scope it
//! would be taken apart for each function's own proof.
ghost use Rattle.std.specs.Prelude.{◌≡◌, IfOk, option_and_then};
ghost use Rattle.desk_model.specs.Readings.Overdue as overdue;
ghost use Rattle.report_core.specs.Rows.{WatchesRise, late_by, late_line_shown, late_lines_shown};

use crate::showing::is_shown;
use desk_model::{LateLine, RequestRow, Watcher};
use hours_core::Minute;
use settings_core::Settings;
use std::alloc::{AllocError, Global};

/// A line for each row that the person may show and that was due before the moment, in the order of
/// the rows. `AllocError` where memory is refused.
pub(crate) fn late_lines(
    alloc: Global,
    at: u32,
    settings: &Settings,
    person: &str,
    watches: &[Watcher],
    rows: Vec<(RequestRow, Option<Minute>)>,
) -> Result<Vec<LateLine>, AllocError>
    ensures { WatchesRise watches.now
        → IfOk result (λ lines. lines.items
        ≡ late_lines_shown at settings.now person.now watches.now rows.items) }
{
    rows.into_iter()
        .filter_map(|dated| late_line_shown(at, settings, person, watches, dated))
        .collect(alloc)
}

/// The line of a row with its due moment, if the person may show it and it was due before the
/// moment. The watches are the person's own, in the order of their requests.
pub fn late_line_shown(
    at: u32,
    settings: &Settings,
    person: &str,
    watches: &[Watcher],
    dated: (RequestRow, Option<Minute>),
) -> Option<LateLine>
    ensures { WatchesRise watches.now
        → result ≡ late_line_shown at settings.now person.now watches.now dated }
{
    let (row, due) = dated;
    if is_shown(settings, person, watches, &row) {
        late_line(at, row, due)
    } else {
        drop(row);
        None
    }
}

/// The line of a row with this due moment, if that is before the moment.
fn late_line(at: u32, row: RequestRow, due: Option<Minute>) -> Option<LateLine>
    ensures { result ≡ option_and_then (overdue.line_if_late at row) due }
{
    match due {
        Some(due) => line_if_late(at, row, due),
        None => {
            drop(row);
            None
        }
    }
}

/// The line of a row that is due then, if that is before the moment.
fn line_if_late(at: u32, row: RequestRow, due: Minute) -> Option<LateLine>
    ensures { result ≡ overdue.line_if_late at row due }
{
    let minute = due.get();
    if minute < at {
        Some(late_by(at - minute, row, due))
    } else {
        drop(row);
        None
    }
}

/// The line of a row that has been late for so many minutes.
fn late_by(late: u32, row: RequestRow, due: Minute) -> LateLine
    ensures { result ≡ late_by late row due }
{
    let RequestRow {
        id,
        queue,
        subject,
        status,
        owner,
        level,
        ..
    } = row;
    drop(subject);
    drop(status);
    drop(level);
    LateLine {
        id,
        queue,
        owner,
        due,
        late,
    }
}
