//! Rows of requests that are written one at a time.
ghost use Rattle.std.specs.Prelude.{◌≡◌, false, IfOk, true};
ghost use Rattle.stream_core.specs.Seen.{has_write_failed};
ghost use Rattle.desk_reports.specs.Gathered.{GathersRow, GathersText};
ghost use Rattle.desk_reports.specs.Lines.{header_of, list_in, row_in, rows_in};
ghost use Rattle.desk_reports.specs.Rows.{GathersNext, GathersRows, IsReading, LeavesRows};
ghost use Rattle.desk_reports.specs.Rows.{PrintsRows};
ghost use Rattle.desk_reports.specs.Streams.{LeavesWriter};

use crate::fault::StreamFault;
use crate::gathered::{finish, gather};
use crate::lines::{ListKind, header, row_text};
use desk_core::{Refusal, RequestRow, Watcher};
use hours_core::Minute;
use settings_core::Settings;
use std::alloc::Global;
use std::io::Write;
use store_core::{Backend, RequestRows};
use stream_core::CountedWriter;

/// Writes the header of a list, and what it has of each row. `Write` where a write fails or takes
/// no byte, `Unavailable` where memory or the store refuses the header or a row: what stands before
/// it was written. The tables stay as they are.
pub(crate) fn put_list<S: Backend, W: Write>(
    alloc: Global,
    kind: ListKind,
    settings: &Settings,
    person: &str,
    watches: &[Watcher],
    rows: &mut RequestRows<'_, S>,
    output: &mut CountedWriter<'_, W>,
) -> Result<(), StreamFault>
    requires reading { IsReading S.Store rows.old }
    requires ready { has_write_failed output.old ≡ false }
    ensures rows { LeavesRows S.Store rows.old rows.new }
    ensures output { LeavesWriter output.old output.new result }
    ensures printed { PrintsRows S.Store watches.now
        (list_in kind settings.now person.now watches.now)
        rows.old rows.new W.contents output.old output.new result }
{
    let mut gathered = Vec::new(alloc);
    let ended = put_texts(
        alloc,
        kind,
        settings,
        person,
        watches,
        rows,
        &mut gathered,
        output,
    );
    finish(ended, &mut gathered, output)
}

/// Puts the header of a list, and what it has of each row, but for what is still gathered.
fn put_texts<S: Backend, W: Write>(
    alloc: Global,
    kind: ListKind,
    settings: &Settings,
    person: &str,
    watches: &[Watcher],
    rows: &mut RequestRows<'_, S>,
    gathered: &mut Vec<u8>,
    output: &mut CountedWriter<'_, W>,
) -> Result<(), StreamFault>
    requires reading { IsReading S.Store rows.old }
    requires ready { has_write_failed output.old ≡ false }
    ensures rows { LeavesRows S.Store rows.old rows.new }
    ensures output { LeavesWriter output.old output.new result }
    ensures gathered { GathersRows S.Store watches.now
        (list_in kind settings.now person.now watches.now)
        rows.old rows.new W.contents output.old gathered.old.items
        output.new gathered.new.items result }
{
    put_header(alloc, kind, gathered, output)?;
    put_rows(
        alloc, kind, settings, person, watches, rows, gathered, output,
    )
}

/// Puts what a list has of each row.
fn put_rows<S: Backend, W: Write>(
    alloc: Global,
    kind: ListKind,
    settings: &Settings,
    person: &str,
    watches: &[Watcher],
    rows: &mut RequestRows<'_, S>,
    gathered: &mut Vec<u8>,
    output: &mut CountedWriter<'_, W>,
) -> Result<(), StreamFault>
    requires reading { IsReading S.Store rows.old }
    requires ready { has_write_failed output.old ≡ false }
    ensures rows { LeavesRows S.Store rows.old rows.new }
    ensures output { LeavesWriter output.old output.new result }
    ensures gathered { GathersRows S.Store watches.now
        (rows_in kind settings.now person.now watches.now)
        rows.old rows.new W.contents output.old gathered.old.items
        output.new gathered.new.items result }
{
    'rows: for _ in 0..u64::MAX {
        if !put_next(
            alloc, kind, settings, person, watches, rows, gathered, output,
        )? {
            return Ok(());
        }
    }
    Err(StreamFault::Refused(Refusal::Unavailable))
}

/// Puts what a list has of the next row, if there is one, and says whether there was.
fn put_next<S: Backend, W: Write>(
    alloc: Global,
    kind: ListKind,
    settings: &Settings,
    person: &str,
    watches: &[Watcher],
    rows: &mut RequestRows<'_, S>,
    gathered: &mut Vec<u8>,
    output: &mut CountedWriter<'_, W>,
) -> Result<bool, StreamFault>
    requires reading { IsReading S.Store rows.old }
    requires ready { has_write_failed output.old ≡ false }
    ensures rows { LeavesRows S.Store rows.old rows.new }
    ensures reading { IfOk result (λ more. more ≡ true → IsReading S.Store rows.new) }
    ensures output { LeavesWriter output.old output.new result }
    ensures gathered { GathersNext S.Store watches.now
        (row_in kind settings.now person.now watches.now)
        rows.old rows.new W.contents output.old gathered.old.items
        output.new gathered.new.items result }
{
    match rows.next() {
        Ok(Some(dated)) => {
            put_row(
                alloc, kind, settings, person, watches, dated, gathered, output,
            )?;
            Ok(true)
        }
        Ok(None) => Ok(false),
        Err(fault) => Err(StreamFault::from(fault)),
    }
}

/// Puts what a list has of a row.
fn put_row<W: Write>(
    alloc: Global,
    kind: ListKind,
    settings: &Settings,
    person: &str,
    watches: &[Watcher],
    dated: (RequestRow, Option<Minute>),
    gathered: &mut Vec<u8>,
    output: &mut CountedWriter<'_, W>,
) -> Result<(), StreamFault>
    requires ready { has_write_failed output.old ≡ false }
    ensures output { LeavesWriter output.old output.new result }
    ensures gathered { GathersRow watches.now
        (row_in kind settings.now person.now watches.now dated)
        W.contents output.old gathered.old.items output.new gathered.new.items result }
{
    let text = row_text(alloc, kind, settings, person, watches, dated)?;
    gather(text.as_str(), gathered, output)
}

/// Puts the header of a list.
fn put_header<W: Write>(
    alloc: Global,
    kind: ListKind,
    gathered: &mut Vec<u8>,
    output: &mut CountedWriter<'_, W>,
) -> Result<(), StreamFault>
    requires ready { has_write_failed output.old ≡ false }
    ensures output { LeavesWriter output.old output.new result }
    ensures gathered { GathersText (header_of kind) W.contents output.old gathered.old.items
        output.new gathered.new.items result }
{
    let text = header(alloc, kind)?;
    gather(text.as_str(), gathered, output)
}
