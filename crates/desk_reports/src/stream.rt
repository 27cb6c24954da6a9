//! Lists that are written row by row. Of a queue 64 rows at most are in memory; of what was due one
//! row, and the numbers of all. Of the text at most 8 KiB and a row's are held before they go out.
ghost use Rattle.std.specs.Prelude.{◌≡◌, false};
ghost use Rattle.desk_model.specs.Readings.Listing as listing;
ghost use Rattle.desk_model.specs.Readings.Overdue as overdue;
ghost use Rattle.desk_model.specs.Told as reports;
ghost use Rattle.desk_texts.specs.Texts.Listed as listed_text;
ghost use Rattle.desk_texts.specs.Texts.Overdue as overdue_text;
ghost use Rattle.store_tables.specs.Calls.{LeavesTables};
ghost use Rattle.store_core.specs.Seen.{state_of};
ghost use Rattle.stream_core.specs.Seen.{HaveOneWriter, has_write_failed};
ghost use Rattle.desk_reports.specs.Streams.{IsCutBy, WritesText};

use crate::fault::StreamFault;
use crate::lines::ListKind;
use crate::rows::put_list;
use desk_core::Call;
use settings_core::Settings;
use std::alloc::Global;
use std::io::Write;
use store_core::{Backend, Store};
use stream_core::CountedWriter;
use text_core::Text;

/// Writes the list of a queue: the header, and a line for each of its requests that the caller may
/// show, in the order of their numbers, with the due moments that the tables keep. `Write` where a
/// write fails or takes no byte, `Refused` by `Unavailable` where memory or the store refuses it:
/// then a part from the front of the text was written. The tables stay as they are.
pub fn stream_list<S: Backend, W: Write>(
    alloc: Global,
    store: &mut Store<S>,
    settings: &Settings,
    caller: &str,
    queue: &Text,
    output: &mut CountedWriter<'_, W>,
) -> Result<(), StreamFault>
    requires { has_write_failed output.old ≡ false }
    ensures same_writer { HaveOneWriter output.new output.old }
    ensures failed { IsCutBy result (has_write_failed output.new) }
    ensures written { WritesText settings.now
        (λ desk. listed_text.list_text
        (listing.lines_of queue.now (reports.told settings.now caller.now desk)))
        (state_of S.Store store.old) (state_of S.Store store.new)
        W.contents output.old output.new result }
    ensures kept { LeavesTables (state_of S.Store store.old) (state_of S.Store store.new) }
{
    let watches = store.watches_of(alloc, caller)?;
    let mut rows = store.rows_of_queue(alloc, queue)?;
    let own = watches.as_slice();
    put_list(
        alloc,
        ListKind::OfQueue,
        settings,
        caller,
        own,
        &mut rows,
        output,
    )
}

/// Writes the list of what was due before the moment: the header, and a line for each request that
/// the caller may show and that was, by the due moments that the tables keep, in their order, and
/// in that of the numbers where those are the same. Its faults are those of `stream_list`. The
/// tables stay as they are.
pub fn stream_overdue<S: Backend, W: Write>(
    alloc: Global,
    store: &mut Store<S>,
    call: Call<'_>,
    output: &mut CountedWriter<'_, W>,
) -> Result<(), StreamFault>
    requires { has_write_failed output.old ≡ false }
    ensures same_writer { HaveOneWriter output.new output.old }
    ensures failed { IsCutBy result (has_write_failed output.new) }
    ensures written { WritesText call.entry.settings.now
        (λ desk. overdue_text.overdue_text
        (overdue.lines_of call.entry.at
        (reports.told call.entry.settings.now call.entry.caller.now desk)))
        (state_of S.Store store.old) (state_of S.Store store.new)
        W.contents output.old output.new result }
    ensures kept { LeavesTables (state_of S.Store store.old) (state_of S.Store store.new) }
{
    let watches = store.watches_of(alloc, call.caller)?;
    let mut rows = store.rows_overdue(alloc, call.at)?;
    let own = watches.as_slice();
    put_list(
        alloc,
        ListKind::Overdue(call.at),
        call.settings,
        call.caller,
        own,
        &mut rows,
        output,
    )
}
