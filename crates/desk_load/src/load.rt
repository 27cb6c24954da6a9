//! A load over tables.
ghost use Rattle.std.specs.Prelude.{◌≡◌, false, None};
ghost use Rattle.stream_core.specs.Seen.{HaveOneWriter, has_write_failed};
ghost use Rattle.desk_program.specs.Opening.{EndsWith, IsNotOpened};
ghost use Rattle.load_core.specs.Load.{beyond_text};
ghost use Rattle.desk_load.specs.Ending.{EndsBy, EndsLoad};

use crate::progress::Told;
use desk_program::{InputFault, open_desk, tell_input_fault};
use load_core::{Ending, Loaded, Plan, is_beyond, load, put_beyond};
use service_core::Desk;
use sqlite::Connection;
use std::io::{BufReader, Write};
use store_core::{Backend, Store};
use stream_core::CountedWriter;

/// The exit status where no line was refused.
const DONE: u8 = 0;

/// The exit status where some line was refused.
const REFUSED: u8 = 1;

/// The exit status where a write failed.
const FAILED_WRITE: u8 = 4;

/// Loads the lines of the standard input over these tables, and gives them back, if there was a
/// desk. Where there was none, its fault is printed, as `open_desk` says.
pub fn load_over<S: Backend + Drop, W: Write>(
    rt: &HostRuntime,
    plan: Plan,
    settings: &[u8],
    tables: Connection<S>,
    output: &mut CountedWriter<'_, W>,
    progress: &mut Told<'_>,
) -> (u8, Option<Connection<S>>)
    requires closed { tables.in_transaction ≡ false }
    requires unfailed { has_write_failed output.old ≡ false }
    ensures same_writer { HaveOneWriter output.new output.old }
    ensures told { result.1 ≡ None → IsNotOpened S.Store W.contents settings.now tables
        output.old output.new result.0 }
{
    match open_desk(rt.alloc(), Store::adopt(tables), settings, output) {
        Ok(mut desk) => {
            let status = load_lines(rt, plan, &mut desk, output, progress);
            let (store, _) = desk.detach();
            (status, Some(store.release()))
        }
        Err(status) => (status, None),
    }
}

/// Loads the lines of the standard input: the exit status.
fn load_lines<S: Backend, W: Write>(
    rt: &HostRuntime,
    plan: Plan,
    desk: &mut Desk<S>,
    output: &mut CountedWriter<'_, W>,
    progress: &mut Told<'_>,
) -> u8
    requires { has_write_failed output.old ≡ false }
    ensures { HaveOneWriter output.new output.old }
{
    match BufReader::new(rt.alloc(), rt.reader()) {
        Ok(mut input) => {
            let loaded = load(rt.alloc(), desk, plan, &mut input, output, progress);
            status_of(plan, &loaded, output)
        }
        Err(_) => tell_input_fault(InputFault::Read, output),
    }
}

/// The exit status of a load. A failed read is told, and that it was to begin beyond the end.
fn status_of<W: Write>(plan: Plan, loaded: &Loaded, output: &mut CountedWriter<'_, W>) -> u8
    ensures same_writer { HaveOneWriter output.new output.old }
    ensures told { EndsLoad W.contents plan loaded.now output.old output.new result }
{
    if is_beyond(plan, loaded) {
        tell_beyond(plan, output)
    } else {
        status_by(loaded, output)
    }
}

/// Tells that there is no line with which the load was to begin.
fn tell_beyond<W: Write>(plan: Plan, output: &mut CountedWriter<'_, W>) -> u8
    ensures same_writer { HaveOneWriter output.new output.old }
    ensures told { EndsWith W.contents (beyond_text plan.passed) 1 output.old output.new result }
{
    put_beyond(plan, output);
    if output.failed() {
        FAILED_WRITE
    } else {
        REFUSED
    }
}

/// The exit status of a load that began.
fn status_by<W: Write>(loaded: &Loaded, output: &mut CountedWriter<'_, W>) -> u8
    ensures same_writer { HaveOneWriter output.new output.old }
    ensures told { EndsBy W.contents loaded.now.ending loaded.now.refused output.old output.new
        result }
{
    match loaded.ending {
        Ending::Input | Ending::Refused => { if loaded.refused { REFUSED } else { DONE } }
        Ending::Read => tell_input_fault(InputFault::Read, output),
        Ending::Write => FAILED_WRITE,
    }
}
