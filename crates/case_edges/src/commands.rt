//! Cases of commands that are run one at a time, on files, or over a writer that fails.
//!
//! What owns much is given back by `drop`, whose proof stands once; at the end of its scope it
//! would be taken apart for each function's own proof.

use crate::calls::{self, Single};
use crate::failure::Failure;
use crate::opening::{self, opening_of};
use crate::streams::Faltering;
use crate::tables::{Opening, opened, opened_at};
use case_disk::End;
use case_text::{Case, number, str_of};
use sqlite::Connection;
use std::alloc::Global;
use store_core::{Backend, Store};
use wire_core::words_of;

/// Runs each command by itself with the settings, on the tables that the one before left; the first
/// one on those that the statements make. Each is written with its status and whether a write
/// failed, and then its text and a line feed. The line of the part `streams` says
///
/// - `writer_fails N`: the first one's writer takes a byte at a time, and fails after N writes;
/// - `on_file PATH`: the tables are in that file, which is opened anew for each command;
/// - `alone_on_file PATH`: the same, and each command is run by the call that lets the tables go;
/// - how the desk is opened (`opening.rt`): it is opened once, and the commands are done on it.
pub(crate) fn run_case<S: Backend + Drop, O: Opening<Connection<S>>>(
    rt: &HostRuntime,
    out: &mut String,
    opening: &O,
    case: &Case<'_>,
) -> Result<(), Failure> {
    let streams = case.text("streams").trim_end();
    if let Some(how) = opening_of(streams)? {
        return opening::run(rt.alloc(), out, opening, case, how);
    }
    let (settings, lines) = (case.text("settings"), case.text("commands"));
    if let Some(path) = streams.strip_prefix("on_file ") {
        return run_on_file(rt, out, opening, settings, path, lines);
    }
    if let Some(path) = streams.strip_prefix("alone_on_file ") {
        return run_alone_on_file(rt, out, opening, settings, path, lines);
    }
    let writes = streams
        .strip_prefix("writer_fails ")
        .ok_or(Failure::BadLine)?;
    let fails_at = number(writes)?;
    let store = opened(rt.alloc(), opening, case.text("tables"))?;
    run_each(rt.alloc(), out, settings, store, lines, fails_at)
}

/// What a line `MOMENT CALLER WORDS ..` asks for.
fn single_of<'s>(settings: &'s str, words: &'s [String]) -> Result<Single<'s>, Failure> {
    match words {
        [at, caller, words @ ..] => Ok(Single {
            settings: settings.as_bytes(),
            caller: caller.as_str(),
            at: number(at.as_str())?,
            words,
        }),
        _ => Err(Failure::BadLine),
    }
}

/// Runs each command on the tables that the one before left.
fn run_each<S: Backend + Drop>(
    alloc: Global,
    out: &mut String,
    settings: &str,
    store: Store<S>,
    lines: &str,
    fails_at: u32,
) -> Result<(), Failure> {
    let mut store = store;
    let mut fails_at = fails_at;
    for line in lines.lines() {
        store = run_whole(alloc, out, settings, store, line, fails_at)?;
        fails_at = u32::MAX;
    }
    drop(store);
    Ok(())
}

/// Runs each command over the tables in a file, which is opened for it and closed after it.
fn run_on_file<S: Backend + Drop, O: Opening<Connection<S>>>(
    rt: &HostRuntime,
    out: &mut String,
    opening: &O,
    settings: &str,
    path: &str,
    lines: &str,
) -> Result<(), Failure> {
    for line in lines.lines() {
        let store = opened_at(rt, opening, path)?;
        let store = run_whole(rt.alloc(), out, settings, store, line, u32::MAX)?;
        drop(opening.close(rt.alloc(), store.release(), End::Closed)?);
    }
    Ok(())
}

/// The same, where each command lets the tables go.
fn run_alone_on_file<S: Backend + Drop, O: Opening<Connection<S>>>(
    rt: &HostRuntime,
    out: &mut String,
    opening: &O,
    settings: &str,
    path: &str,
    lines: &str,
) -> Result<(), Failure> {
    for line in lines.lines() {
        let store = opened_at(rt, opening, path)?;
        run_alone(rt.alloc(), out, settings, store, line)?;
    }
    Ok(())
}

/// Runs the command, lets its store go, and writes it with its status, and then its text and a line
/// feed.
fn run_alone<S: Backend + Drop>(
    alloc: Global,
    out: &mut String,
    settings: &str,
    store: Store<S>,
    line: &str,
) -> Result<(), Failure> {
    let words = words_of(alloc, line)?;
    let single = single_of(settings, words.as_slice())?;
    let mut writer = Faltering::never(alloc);
    let (status, _, store) = calls::run_alone(alloc, store, single, &mut writer);
    drop(store);
    let text = str_of(writer.taken.as_slice());
    writeln!(out, "{line}: status {status}\n{text}")?;
    Ok(())
}

/// Runs the command, writes how it ended, and gives the store back.
fn run_whole<S: Backend + Drop>(
    alloc: Global,
    out: &mut String,
    settings: &str,
    store: Store<S>,
    line: &str,
    fails_at: u32,
) -> Result<Store<S>, Failure> {
    let words = words_of(alloc, line)?;
    let single = single_of(settings, words.as_slice())?;
    let mut writer = Faltering::after(alloc, fails_at, true);
    let (status, failed, store) = calls::run_alone(alloc, store, single, &mut writer);
    let text = str_of(writer.taken.as_slice());
    match writeln!(out, "{line}: status {status}, failed {failed}\n{text}") {
        Ok(()) => Ok(store),
        Err(error) => {
            drop(store);
            Err(Failure::Memory(error))
        }
    }
}
