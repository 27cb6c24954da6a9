//! A load into a file of tables.
ghost use Rattle.std.specs.Prelude.{◌≡◌, false};
ghost use Rattle.stream_core.specs.Seen.{has_write_failed};

use crate::files::read_settings;
use crate::load::load_over;
use crate::options::Asked;
use crate::progress::Told;
use batch_store::{Batched, keep_back, make_all};
use check_core::files::tell_why;
use desk_program::{open_desk, tell_input_fault, tell_store_fault};
use load_core::Plan;
use sqlite::Connection;
use std::io::{self, Write};
use store_core::{Backend, Store, StoreFault};
use stream_core::CountedWriter;

/// Reads the settings, opens the tables, loads the lines, and closes the tables. Where there is no
/// desk, the standard error says where the fault stands, beside what is printed.
pub fn run(rt: &HostRuntime, asked: &Asked<'_>, plan: Plan, commit: u64) -> u8 {
    match read_settings(rt, asked.settings) {
        Ok(settings) => run_on_file(rt, asked.tables, plan, commit, settings.as_slice()),
        Err(fault) => tell_input_fault(fault, &mut CountedWriter::new(&mut io::writer(rt))),
    }
}

/// Loads lines into the file of tables, and tells how far it came. What they changed is committed
/// before that is told; closing only copies it from the log into the file, so its fault is passed
/// over.
fn run_on_file(rt: &HostRuntime, path: &str, plan: Plan, commit: u64, settings: &[u8]) -> u8 {
    let mut writer = io::writer(rt);
    let mut output = CountedWriter::new(&mut writer);
    let Ok(tables) = Connection::open(rt, path) else {
        tell_why(rt, path, settings);
        return tell_store_fault(StoreFault::Refused, &mut output);
    };
    let mut progress = Told::new(rt, plan.passed, commit);
    let (status, tables) = if commit == 1 {
        load_over(rt, plan, settings, tables, &mut output, &mut progress)
    } else {
        load_together(
            rt,
            plan,
            commit,
            settings,
            tables,
            &mut output,
            &mut progress,
        )
    };
    match tables {
        Some(tables) => {
            progress.tell_end();
            let _closed = tables.close();
        }
        None => tell_why(rt, path, settings),
    }
    status
}

/// Loads lines over tables of which so many commits are one. The tables are made, and the settings
/// attached to them, before that: so lines alone are counted.
fn load_together<S: Backend + Drop, W: Write>(
    rt: &HostRuntime,
    plan: Plan,
    commit: u64,
    settings: &[u8],
    tables: Connection<S>,
    output: &mut CountedWriter<'_, W>,
    progress: &mut Told<'_>,
) -> (u8, Option<Connection<S>>)
    requires closed { tables.in_transaction ≡ false }
    requires unfailed { has_write_failed output.old ≡ false }
{
    match open_desk(rt.alloc(), Store::adopt(tables), settings, output) {
        Ok(desk) => {
            let (store, _) = desk.detach();
            load_on_made(
                rt,
                plan,
                commit,
                settings,
                store.release(),
                output,
                progress,
            )
        }
        Err(status) => (status, None),
    }
}

/// The same over tables that are made.
fn load_on_made<S: Backend + Drop, W: Write>(
    rt: &HostRuntime,
    plan: Plan,
    commit: u64,
    settings: &[u8],
    tables: Connection<S>,
    output: &mut CountedWriter<'_, W>,
    progress: &mut Told<'_>,
) -> (u8, Option<Connection<S>>)
    requires { has_write_failed output.old ≡ false }
{
    match keep_back(rt.alloc(), tables, commit) {
        Some(tables) => {
            let (status, tables) = load_over(rt, plan, settings, tables, output, progress);
            match tables {
                Some(tables) => commit_rest(rt, status, tables, output, progress),
                None => (status, None),
            }
        }
        None => (tell_store_fault(StoreFault::Refused, output), None),
    }
}

/// Commits what is still kept back. Where it couldn't be, that is told, with the last line that
/// stands in the file.
fn commit_rest<S: Backend + Drop, W: Write>(
    rt: &HostRuntime,
    status: u8,
    tables: Connection<Batched<S>>,
    output: &mut CountedWriter<'_, W>,
    progress: &Told<'_>,
) -> (u8, Option<Connection<S>>) {
    match make_all(rt.alloc(), tables) {
        Some(tables) => (status, Some(tables)),
        None => {
            progress.tell_standing();
            (tell_store_fault(StoreFault::Refused, output), None)
        }
    }
}
