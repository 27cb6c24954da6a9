//! A desk over tables, and what is asked of it.
//!
//! What owns much is given back by `drop`, whose proof stands once; at the end of its scope it
//! would be taken apart for each function's own proof.

use crate::asks::{Ask, asks_of};
use crate::calls::{self, Outcome, execute, execute_all};
use crate::failure::Failure;
use crate::tables::{Opening, opened};
use case_text::Case;
use service_core::{Desk, outcome_text};
use settings_core::Settings;
use sqlite::Connection;
use std::alloc::Global;
use store_core::{Backend, Store};

/// What stands between settings and commands.
const COMMANDS: &str = "%%\n";

/// The tables, settings and commands that a desk begins with.
#[derive(Clone, Copy)]
pub struct Before<'b> {
    pub tables: &'b str,
    pub settings: &'b str,
    pub commands: &'b str,
}

impl<'b> Before<'b> {
    /// What a case says of them in its parts `tables` and in that one, which is written as a script
    /// is.
    pub fn of(case: &'b Case<'_>, part: &str) -> Result<Before<'b>, Failure> {
        let halves = case.text(part).split_once(COMMANDS);
        let (settings, commands) = halves.ok_or(Failure::BadLine)?;
        Ok(Before {
            tables: case.text("tables"),
            settings,
            commands,
        })
    }
}

/// A desk over the tables that the statements make, or over those of a new desk.
pub(crate) fn attached<S: Backend + Drop, O: Opening<Connection<S>>>(
    alloc: Global,
    opening: &O,
    tables: &str,
    settings: &str,
) -> Result<Desk<S>, Failure> {
    let settings = calls::read_settings(alloc, settings)?;
    match made(alloc, opening, tables) {
        Ok(store) => attached_to(alloc, store, settings),
        Err(failure) => {
            drop(settings);
            Err(failure)
        }
    }
}

fn attached_to<S: Backend + Drop>(
    alloc: Global,
    store: Store<S>,
    settings: Settings,
) -> Result<Desk<S>, Failure> {
    match calls::attach(alloc, store, settings) {
        Ok(desk) => Ok(desk),
        Err((_, store)) => {
            drop(store);
            Err(Failure::NotAttached)
        }
    }
}

/// A store over the tables that the statements make, with those that are missing.
fn made<S: Backend + Drop, O: Opening<Connection<S>>>(
    alloc: Global,
    opening: &O,
    tables: &str,
) -> Result<Store<S>, Failure> {
    let store = opened(alloc, opening, tables)?;
    with_missing(alloc, store)
}

fn with_missing<S: Backend + Drop>(alloc: Global, store: Store<S>) -> Result<Store<S>, Failure> {
    let mut store = store;
    match calls::make_tables(alloc, &mut store) {
        Ok(()) => Ok(store),
        Err(fault) => {
            drop(store);
            Err(Failure::Store(fault))
        }
    }
}

/// Asks a command: the text of its outcome.
pub(crate) fn outcome<S: Backend>(
    alloc: Global,
    desk: &mut Desk<S>,
    ask: &Ask,
) -> Result<String, Failure> {
    let outcome = execute(alloc, desk, ask);
    let text = outcome_text(alloc, &outcome);
    drop(outcome);
    Ok(text?)
}

/// Asks the commands of a desk, whatever comes of them.
pub fn do_first<S: Backend>(
    alloc: Global,
    commands: &str,
    desk: &mut Desk<S>,
) -> Result<(), Failure> {
    let asks = asks_of(alloc, commands)?;
    let _ = execute_all(alloc, desk, asks.as_slice())?;
    Ok(())
}

/// Writes what comes of each command, all asked at once.
pub(crate) fn tell_each<S: Backend>(
    alloc: Global,
    out: &mut String,
    desk: &mut Desk<S>,
    commands: &str,
) -> Result<(), Failure> {
    let asks = asks_of(alloc, commands)?;
    let outcomes = execute_all(alloc, desk, asks.as_slice())?;
    put_outcomes(alloc, out, outcomes.as_slice())
}

fn put_outcomes(alloc: Global, out: &mut String, outcomes: &[Outcome]) -> Result<(), Failure> {
    for outcome in outcomes {
        out.push_str(outcome_text(alloc, outcome)?.as_str())?;
    }
    Ok(())
}
