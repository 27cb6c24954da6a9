//! Cases of a desk over tables.
//!
//! What owns much is given back by `drop`, whose proof stands once; at the end of its scope it
//! would be taken apart for each function's own proof.

use crate::asks::{Ask, asks_of};
use crate::calls::{self, Outcome, execute, execute_all};
use crate::failure::Failure;
use crate::statements::ask_each;
use crate::tables::{Opening, opened};
use case_text::Case;
use service_core::{AttachFault, Desk, outcome_text};
use settings_core::Settings;
use std::alloc::Global;
use store_core::{Backend, Store, StoreFault};

/// What stands between settings and commands.
const COMMANDS: &str = "%%\n";

/// The tables, settings and commands that a desk begins with.
#[derive(Clone, Copy)]
pub(crate) struct Before<'b> {
    pub(crate) tables: &'b str,
    pub(crate) settings: &'b str,
    pub(crate) commands: &'b str,
}

impl<'b> Before<'b> {
    /// What a case says of them in its parts `tables` and in that one, which is written as a script
    /// is.
    pub(crate) fn of(case: &'b Case<'_>, part: &str) -> Result<Before<'b>, Failure> {
        let halves = case.text(part).split_once(COMMANDS);
        let (settings, commands) = halves.ok_or(Failure::BadLine)?;
        Ok(Before {
            tables: case.text("tables"),
            settings,
            commands,
        })
    }
}

/// Attaches the settings to the tables, and asks all commands at once; then the queries are asked
/// of the tables.
pub(crate) fn run_case<O: Opening>(
    alloc: Global,
    out: &mut String,
    opening: &O,
    case: &Case<'_>,
) -> Result<(), Failure> {
    let before = Before::of(case, "list")?;
    let settings = Settings::read(alloc, before.settings.as_bytes())?;
    let store = match made(alloc, opening, before.tables) {
        Ok(store) => store,
        Err(failure) => {
            drop(settings);
            return Err(failure);
        }
    };
    run(
        alloc,
        out,
        store,
        settings,
        before.commands,
        case.text("query"),
    )
}

fn run<S: Backend + Drop>(
    alloc: Global,
    out: &mut String,
    store: Store<S>,
    settings: Settings,
    commands: &str,
    queries: &str,
) -> Result<(), Failure> {
    match calls::attach(alloc, store, settings) {
        Ok(desk) => run_attached(alloc, out, desk, commands, queries),
        Err((fault, store)) => {
            let mut store = store;
            let told = tell_given_back(alloc, out, fault, &mut store);
            drop(store);
            told
        }
    }
}

fn run_attached<S: Backend + Drop>(
    alloc: Global,
    out: &mut String,
    desk: Desk<S>,
    commands: &str,
    queries: &str,
) -> Result<(), Failure> {
    let mut desk = desk;
    let told = ask_all(alloc, out, &mut desk, commands);
    let (store, settings) = desk.detach();
    drop(settings);
    let asked = ask_each(out, store.release(), queries);
    told?;
    asked
}

/// A desk over the tables that the statements make, or over those of a new desk.
pub(crate) fn attached<O: Opening>(
    alloc: Global,
    opening: &O,
    tables: &str,
    settings: &str,
) -> Result<Desk<O::Kept>, Failure> {
    let settings = Settings::read(alloc, settings.as_bytes())?;
    match made(alloc, opening, tables) {
        Ok(store) => attached_to(alloc, store, settings),
        Err(failure) => {
            drop(settings);
            Err(failure)
        }
    }
}

fn attached_to<S: Backend + Drop>(
    alloc: Global,
    store: Store<S>,
    settings: Settings,
) -> Result<Desk<S>, Failure> {
    match calls::attach(alloc, store, settings) {
        Ok(desk) => Ok(desk),
        Err((_, store)) => {
            drop(store);
            Err(Failure::NotAttached)
        }
    }
}

/// A store over the tables that the statements make, with those that are missing.
fn made<O: Opening>(alloc: Global, opening: &O, tables: &str) -> Result<Store<O::Kept>, Failure> {
    let store = opened(alloc, opening, tables)?;
    with_missing(alloc, store)
}

fn with_missing<S: Backend + Drop>(alloc: Global, store: Store<S>) -> Result<Store<S>, Failure> {
    let mut store = store;
    match store.create_schema(alloc) {
        Ok(()) => Ok(store),
        Err(fault) => {
            drop(store);
            Err(Failure::Store(fault))
        }
    }
}

/// Writes that the settings are attached and what comes of each command, all asked at once.
fn ask_all<S: Backend>(
    alloc: Global,
    out: &mut String,
    desk: &mut Desk<S>,
    commands: &str,
) -> Result<(), Failure> {
    let room = desk.settings().max_requests();
    writeln!(out, "attach: ok, room for {room} requests")?;
    let asks = asks_of(alloc, commands)?;
    match execute_all(alloc, desk, asks.as_slice()) {
        Ok(outcomes) => put_outcomes(alloc, out, outcomes.as_slice()),
        Err(_) => {
            writeln!(out, "out of memory")?;
            Ok(())
        }
    }
}

/// Asks a command: the text of its outcome.
pub(crate) fn outcome<S: Backend>(
    alloc: Global,
    desk: &mut Desk<S>,
    ask: &Ask,
) -> Result<String, Failure> {
    let outcome = execute(alloc, desk, ask);
    let text = outcome_text(alloc, &outcome);
    drop(outcome);
    Ok(text?)
}

/// Adds the text of each outcome.
pub(crate) fn put_outcomes(
    alloc: Global,
    out: &mut String,
    outcomes: &[Outcome],
) -> Result<(), Failure> {
    for outcome in outcomes {
        out.push_str(outcome_text(alloc, outcome)?.as_str())?;
    }
    Ok(())
}

/// Writes why the settings can't be attached, and how many rows the store lists that is given back.
fn tell_given_back<S: Backend>(
    alloc: Global,
    out: &mut String,
    fault: AttachFault,
    store: &mut Store<S>,
) -> Result<(), Failure> {
    writeln!(out, "attach: {} {}", fault.number(), fault.name())?;
    tell_count(out, "queues", store.queues(alloc))?;
    tell_count(out, "requests", store.requests(alloc))?;
    tell_count(out, "watchers", store.watchers(alloc))?;
    tell_count(out, "entries of 1", store.entries_of(alloc, 1))
}

/// Writes how many rows were read, or why they weren't.
fn tell_count<T: Drop>(
    out: &mut String,
    call: &str,
    read: Result<Vec<T>, StoreFault>,
) -> Result<(), Failure> {
    match read {
        Ok(rows) => writeln!(out, "{call}: {}", rows.len())?,
        Err(fault) => writeln!(out, "{call}: {} {}", fault.number(), fault.name())?,
    }
    Ok(())
}
