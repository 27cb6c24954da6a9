//! The texts of which a list is made that is written row by row.
ghost use Rattle.std.specs.Prelude.{◌≡◌, IfOk, string_bytes};
ghost use Rattle.report_core.specs.Rows.{WatchesRise};
ghost use Rattle.desk_texts.specs.Texts.Listed as listed;
ghost use Rattle.desk_texts.specs.Texts.Overdue as overdue;
ghost use Rattle.desk_reports.specs.Lines.{header_of, late_row, row_in, row_of_queue};

use desk_core::{LateLine, Line, RequestRow, Watcher};
use desk_texts::{put_late_line, put_line, put_list_header, put_overdue_header};
use hours_core::Minute;
use report_core::{late_line_shown, line_shown};
use settings_core::Settings;
use std::alloc::{AllocError, Global};

/// Which list is written.
#[derive(Clone, Copy)]
pub(crate) enum ListKind {
    /// A queue's.
    OfQueue,
    /// That of the requests that were due before this moment.
    Overdue(u32),
}

/// The header of a list. `AllocError` where memory is refused.
pub(crate) fn header(alloc: Global, kind: ListKind) -> Result<String, AllocError>
    ensures { IfOk result (λ t. string_bytes t ≡ header_of kind) }
{
    match kind {
        ListKind::OfQueue => list_header(alloc),
        ListKind::Overdue(_) => overdue_header(alloc),
    }
}

fn list_header(alloc: Global) -> Result<String, AllocError>
    ensures { IfOk result (λ t. string_bytes t ≡ listed.header) }
{
    let mut out = String::new(alloc);
    put_list_header(&mut out)?;
    Ok(out)
}

fn overdue_header(alloc: Global) -> Result<String, AllocError>
    ensures { IfOk result (λ t. string_bytes t ≡ overdue.header) }
{
    let mut out = String::new(alloc);
    put_overdue_header(&mut out)?;
    Ok(out)
}

/// What a list has of a row with its due moment: its line, if it is told to the person, and else
/// nothing. The watches are the person's own, in the order of their requests. `AllocError` where
/// memory is refused.
pub(crate) fn row_text(
    alloc: Global,
    kind: ListKind,
    settings: &Settings,
    person: &str,
    watches: &[Watcher],
    dated: (RequestRow, Option<Minute>),
) -> Result<String, AllocError>
    ensures { WatchesRise watches.now → IfOk result (λ t. string_bytes t
        ≡ row_in kind settings.now person.now watches.now dated) }
{
    match kind {
        ListKind::OfQueue => row_of_queue(alloc, settings, person, watches, dated),
        ListKind::Overdue(at) => late_row(alloc, at, settings, person, watches, dated),
    }
}

fn row_of_queue(
    alloc: Global,
    settings: &Settings,
    person: &str,
    watches: &[Watcher],
    dated: (RequestRow, Option<Minute>),
) -> Result<String, AllocError>
    ensures { WatchesRise watches.now → IfOk result (λ t. string_bytes t
        ≡ row_of_queue settings.now person.now watches.now dated) }
{
    match line_shown(settings, person, watches, dated) {
        Some(line) => line_text(alloc, &line),
        None => Ok(String::new(alloc)),
    }
}

fn late_row(
    alloc: Global,
    at: u32,
    settings: &Settings,
    person: &str,
    watches: &[Watcher],
    dated: (RequestRow, Option<Minute>),
) -> Result<String, AllocError>
    ensures { WatchesRise watches.now → IfOk result (λ t. string_bytes t
        ≡ late_row at settings.now person.now watches.now dated) }
{
    match late_line_shown(at, settings, person, watches, dated) {
        Some(line) => late_line_text(alloc, &line),
        None => Ok(String::new(alloc)),
    }
}

fn line_text(alloc: Global, line: &Line) -> Result<String, AllocError>
    ensures { IfOk result (λ t. string_bytes t ≡ listed.line_of_request line.now) }
{
    let mut out = String::new(alloc);
    put_line(&mut out, line)?;
    Ok(out)
}

fn late_line_text(alloc: Global, line: &LateLine) -> Result<String, AllocError>
    ensures { IfOk result (λ t. string_bytes t ≡ overdue.line_of_request line.now) }
{
    let mut out = String::new(alloc);
    put_late_line(&mut out, line)?;
    Ok(out)
}
