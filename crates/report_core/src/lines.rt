//! The lines of a queue's list.
//!
//! What owns much is given back by `drop`, whose proof stands once; at the end of its scope it
//! would be taken apart for each function's own proof.
ghost use Rattle.std.specs.Prelude.{◌≡◌, IfOk};
ghost use Rattle.report_core.specs.Rows.{WatchesRise, line_shown, line_with, lines_shown};

use crate::showing::is_shown;
use desk_model::{Line, RequestRow, Watcher};
use hours_core::Minute;
use settings_core::Settings;
use std::alloc::{AllocError, Global};

/// A line for each row that the person may show, in the order of the rows. `AllocError` where
/// memory is refused.
pub(crate) fn lines_of(
    alloc: Global,
    settings: &Settings,
    person: &str,
    watches: &[Watcher],
    rows: Vec<(RequestRow, Option<Minute>)>,
) -> Result<Vec<Line>, AllocError>
    ensures { WatchesRise watches.now
        → IfOk result (λ lines. lines.items
        ≡ lines_shown settings.now person.now watches.now rows.items) }
{
    rows.into_iter()
        .filter_map(|dated| line_shown(settings, person, watches, dated))
        .collect(alloc)
}

/// The line of a row with its due moment, if the person may show it. The watches are the person's
/// own, in the order of their requests.
pub fn line_shown(
    settings: &Settings,
    person: &str,
    watches: &[Watcher],
    dated: (RequestRow, Option<Minute>),
) -> Option<Line>
    ensures { WatchesRise watches.now
        → result ≡ line_shown settings.now person.now watches.now dated }
{
    let (row, due) = dated;
    if is_shown(settings, person, watches, &row) {
        Some(line_with(row, due))
    } else {
        drop(row);
        None
    }
}

/// The line of a row with this due moment.
fn line_with(row: RequestRow, due: Option<Minute>) -> Line
    ensures { result ≡ line_with row due }
{
    let RequestRow {
        id,
        queue,
        subject,
        status,
        owner,
        level,
        ..
    } = row;
    drop(queue);
    drop(level);
    Line {
        id,
        status,
        owner,
        due,
        subject,
    }
}
