//! Cases of a desk that is opened over tables, with settings that are taken of a reader.
//!
//! What owns much is given back by `drop`, whose proof stands once; at the end of its scope it
//! would be taken apart for each function's own proof.

use crate::calls::{open, open_whole, take, version};
use crate::desks::tell_each;
use crate::failure::Failure;
use crate::streams::{Faltering, Slow};
use crate::tables::{self, opened};
use case_text::{Case, number, str_of};
use desk_program::InputFault;
use service_core::Desk;
use sqlite::Connection;
use std::alloc::Global;
use store_core::{Backend, Store};

/// How the settings are taken and the desk is opened.
#[derive(Clone, Copy)]
pub(crate) struct Opening {
    /// After how many reads the reader of the settings fails, if it does.
    reader_at: Option<u32>,
    /// After how many writes the writer of a fault fails.
    writer_at: u32,
    /// Whether the store is given back where there is no desk.
    whole: bool,
}

/// No call fails.
const OPENED: Opening = Opening {
    reader_at: None,
    writer_at: u32::MAX,
    whole: false,
};

/// How a line asks that the desk be opened, if it does:
///
/// | Line | The desk is opened |
/// |---|---|
/// | `opened` | by the call that lets the store go where there is no desk |
/// | `opened_whole` | by the one that gives it back then |
/// | `settings_fail N` | as `opened`; the settings come a byte a read, and fail after N reads |
/// | `fault_fails N` | as `opened`; the writer of a fault fails after N writes |
pub(crate) fn opening_of(line: &str) -> Result<Option<Opening>, Failure> {
    let (kind, rest) = line.split_once(' ').unwrap_or((line, ""));
    match kind {
        "opened" => Ok(Some(OPENED)),
        "opened_whole" => Ok(Some(Opening {
            whole: true,
            ..OPENED
        })),
        "settings_fail" => Ok(Some(Opening {
            reader_at: Some(number(rest)?),
            ..OPENED
        })),
        "fault_fails" => Ok(Some(Opening {
            writer_at: number(rest)?,
            ..OPENED
        })),
        _ => Ok(None),
    }
}

/// Takes the settings of a reader, opens the desk over the tables that the statements make, and
/// does the commands. Adds how many bytes were taken, what was written when the desk was opened and
/// how that ended, and the text of each command.
pub(crate) fn run<S: Backend + Drop, O: tables::Opening<Connection<S>>>(
    alloc: Global,
    out: &mut String,
    tables: &O,
    case: &Case<'_>,
    opening: Opening,
) -> Result<(), Failure> {
    match taken(alloc, case.text("settings").as_bytes(), opening.reader_at) {
        Ok(taken) => {
            writeln!(out, "take: {} bytes", taken.len())?;
            let store = opened(alloc, tables, case.text("tables"))?;
            let commands = case.text("commands");
            open_over(alloc, out, store, taken.as_slice(), commands, opening)
        }
        Err(fault) => {
            writeln!(out, "take: {}", fault.name())?;
            Ok(())
        }
    }
}

/// Takes the settings of a reader; of one that may fail, a byte at a time.
fn taken(alloc: Global, settings: &[u8], fails_at: Option<u32>) -> Result<Vec<u8>, InputFault> {
    match fails_at {
        Some(reads) => take(alloc, &mut Slow::failing(settings, reads)),
        None => take(alloc, &mut Slow::at_once(settings)),
    }
}

fn open_over<S: Backend + Drop>(
    alloc: Global,
    out: &mut String,
    store: Store<S>,
    settings: &[u8],
    commands: &str,
    opening: Opening,
) -> Result<(), Failure> {
    let writer = Faltering::after(alloc, opening.writer_at, true);
    if opening.whole {
        try_whole(alloc, out, store, settings, commands, writer)
    } else {
        try_open(alloc, out, store, settings, commands, writer)
    }
}

fn try_open<S: Backend + Drop>(
    alloc: Global,
    out: &mut String,
    store: Store<S>,
    settings: &[u8],
    commands: &str,
    writer: Faltering,
) -> Result<(), Failure> {
    let mut writer = writer;
    match open(alloc, store, settings, &mut writer) {
        Ok(desk) => do_all(alloc, out, desk, commands),
        Err(status) => tell_unopened(out, writer.taken.as_slice(), status),
    }
}

fn try_whole<S: Backend + Drop>(
    alloc: Global,
    out: &mut String,
    store: Store<S>,
    settings: &[u8],
    commands: &str,
    writer: Faltering,
) -> Result<(), Failure> {
    let mut writer = writer;
    match open_whole(alloc, store, settings, &mut writer) {
        Ok(desk) => do_all(alloc, out, desk, commands),
        Err((status, store)) => {
            let mut store = store;
            let told = tell_given_back(out, writer.taken.as_slice(), status, &mut store);
            drop(store);
            told
        }
    }
}

fn tell_unopened(out: &mut String, taken: &[u8], status: u8) -> Result<(), Failure> {
    writeln!(out, "{}open: status {status}", str_of(taken))?;
    Ok(())
}

/// The same, and which version the tables have that were given back.
fn tell_given_back<S: Backend>(
    out: &mut String,
    taken: &[u8],
    status: u8,
    store: &mut Store<S>,
) -> Result<(), Failure> {
    tell_unopened(out, taken, status)?;
    match version(store) {
        Ok(version) => writeln!(out, "given back: version {version}")?,
        Err(fault) => writeln!(out, "given back: {} {}", fault.number(), fault.name())?,
    }
    Ok(())
}

/// Does the commands on the desk, and lets it go.
fn do_all<S: Backend + Drop>(
    alloc: Global,
    out: &mut String,
    desk: Desk<S>,
    commands: &str,
) -> Result<(), Failure> {
    let mut desk = desk;
    let told = tell_opened(alloc, out, &mut desk, commands);
    drop(desk);
    told
}

fn tell_opened<S: Backend>(
    alloc: Global,
    out: &mut String,
    desk: &mut Desk<S>,
    commands: &str,
) -> Result<(), Failure> {
    writeln!(out, "open: ok")?;
    tell_each(alloc, out, desk, commands)
}
