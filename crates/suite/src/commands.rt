//! Cases of commands that are run one at a time, with statements on the tables between them.
//!
//! What owns much is given back by `drop`, whose proof stands once; at the end of its scope it
//! would be taken apart for each function's own proof.

use crate::calls::{self, Single};
use crate::failure::Failure;
use crate::statements::{ask, is_statement};
use crate::tables::{Opening, adopted, opened};
use case_text::{Case, number, str_of};
use std::alloc::Global;
use store_core::{Backend, Store};
use wire_core::words_of;

/// Runs each command by itself with the settings, on the tables that the one before left; the first
/// one on those that the statements make. Each is written with its status and whether a write
/// failed, and then its text and a line feed. A line that begins with a large letter is a statement
/// on the tables. Where a part `streams` says `alone`, each command is run on tables of its own
/// that the statements make, by the call that lets them go.
pub(crate) fn run_case<O: Opening>(
    alloc: Global,
    out: &mut String,
    opening: &O,
    case: &Case<'_>,
) -> Result<(), Failure> {
    let (settings, tables) = (case.text("settings"), case.text("tables"));
    let commands = case.text("commands");
    if case.text("streams").trim_end() == "alone" {
        return run_each_alone(alloc, out, opening, tables, settings, commands);
    }
    let store = opened(alloc, opening, tables)?;
    run_each(alloc, out, settings, store, commands)
}

fn run_each_alone<O: Opening>(
    alloc: Global,
    out: &mut String,
    opening: &O,
    tables: &str,
    settings: &str,
    commands: &str,
) -> Result<(), Failure> {
    for line in commands.lines() {
        let store = opened(alloc, opening, tables)?;
        run_alone(alloc, out, settings, store, line)?;
    }
    Ok(())
}

fn run_alone<S: Backend + Drop>(
    alloc: Global,
    out: &mut String,
    settings: &str,
    store: Store<S>,
    line: &str,
) -> Result<(), Failure> {
    let words = words_of(alloc, line)?;
    let single = single_of(settings, words.as_slice())?;
    let mut text = Vec::new(alloc);
    let (status, _, store) = calls::run_alone(alloc, store, single, &mut text);
    drop(store);
    writeln!(out, "{line}: status {status}\n{}", str_of(text.as_slice()))?;
    Ok(())
}

/// What a line `MOMENT CALLER WORDS ..` asks for.
fn single_of<'s>(settings: &'s str, words: &'s [String]) -> Result<Single<'s>, Failure> {
    match words {
        [at, caller, words @ ..] => Ok(Single {
            settings: settings.as_bytes(),
            caller: caller.as_str(),
            at: number(at.as_str())?,
            words,
        }),
        _ => Err(Failure::BadLine),
    }
}

/// Runs each line on the tables that the one before left.
fn run_each<S: Backend + Drop>(
    alloc: Global,
    out: &mut String,
    settings: &str,
    store: Store<S>,
    lines: &str,
) -> Result<(), Failure> {
    let mut store = store;
    for line in lines.lines() {
        store = if is_statement(line) {
            run_statement(out, store, line)?
        } else {
            run_whole(alloc, out, settings, store, line)?
        };
    }
    drop(store);
    Ok(())
}

fn run_statement<S: Backend + Drop>(
    out: &mut String,
    store: Store<S>,
    line: &str,
) -> Result<Store<S>, Failure> {
    let mut conn = store.release();
    if let Err(failure) = ask(out, &mut conn, line) {
        drop(conn);
        return Err(failure);
    }
    adopted(conn)
}

/// Runs the command, writes how it ended, and gives the store back.
fn run_whole<S: Backend + Drop>(
    alloc: Global,
    out: &mut String,
    settings: &str,
    store: Store<S>,
    line: &str,
) -> Result<Store<S>, Failure> {
    let words = words_of(alloc, line)?;
    let single = single_of(settings, words.as_slice())?;
    let mut text = Vec::new(alloc);
    let (status, failed, store) = calls::run_alone(alloc, store, single, &mut text);
    let text = str_of(text.as_slice());
    match writeln!(out, "{line}: status {status}, failed {failed}\n{text}") {
        Ok(()) => Ok(store),
        Err(error) => {
            drop(store);
            Err(Failure::Memory(error))
        }
    }
}
