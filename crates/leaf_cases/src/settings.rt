//! Settings: a text, and questions to its settings, one in each line.
//!
//! The text `built_in` alone stands for the settings without a text.
//!
//! What owns much is given back by `drop`, whose proof stands once; at the end of its scope it
//! would be taken apart for each function's own proof.

mod changed;
mod sessions;

use crate::questions;
use case_text::{Answering, Case, CaseFault, answer_lines};
use settings_core::{Settings, SettingsFault};
use settings_places::reading::{PlacedFault, TomlFault, Unread, read_telling};
use std::alloc::{AllocError, Global};

/// The text that stands for the settings without one.
const BUILT_IN: &str = "built_in\n";

/// Adds what the text is read as, and the answers to the questions.
pub(crate) fn run_case(alloc: Global, out: &mut String, case: &Case<'_>) -> Result<(), CaseFault> {
    let text = case.text("settings");
    match read(alloc, text) {
        Ok(settings) => {
            writeln!(out, "settings")?;
            let mut asked = Asked { settings, text };
            let answered = answer_lines(alloc, out, &mut asked, case.text("questions"));
            drop(asked);
            answered
        }
        Err(unread) => Ok(tell(alloc, out, &unread)?),
    }
}

/// Settings that were read, and their text.
#[derive(Drop)]
struct Asked<'t> {
    settings: Settings,
    text: &'t str,
}

impl Answering for Asked<'_> {
    type Failure = CaseFault;

    /// Answers a question to the settings, or to the changed text.
    fn answer(&mut self, alloc: Global, out: &mut String, line: &str) -> Result<(), CaseFault> {
        questions::ask(alloc, out, &self.settings, line)?;
        sessions::ask(alloc, out, &self.settings, line)?;
        Ok(changed::ask(alloc, out, self.text, line)?)
    }
}

fn read(alloc: Global, text: &str) -> Result<Settings, Unread> {
    if text != BUILT_IN {
        return read_telling(alloc, text.as_bytes());
    }
    match Settings::built_in(alloc) {
        Ok(settings) => Ok(settings),
        Err(_) => Err(Unread::NoMemory),
    }
}

/// Adds why a text states no settings: its fault, and where that stands.
fn tell(alloc: Global, out: &mut String, unread: &Unread) -> Result<(), AllocError> {
    match unread {
        Unread::NotToml(fault) => tell_line(out, *fault),
        Unread::Fault(fault) => tell_place(alloc, out, fault),
        Unread::NoMemory => Err(AllocError),
    }
}

fn tell_line(out: &mut String, fault: TomlFault) -> Result<(), AllocError> {
    tell_fault(out, SettingsFault::NotToml)?;
    let line = fault.at.line;
    let column = fault.at.column;
    writeln!(out, "line {line}, column {column}")
}

fn tell_place(alloc: Global, out: &mut String, placed: &PlacedFault) -> Result<(), AllocError> {
    tell_fault(out, placed.fault)?;
    match placed.place(alloc)? {
        Some(place) => writeln!(out, "{place}"),
        None => writeln!(out, "no place"),
    }
}

/// Adds a fault as scripts tell it.
fn tell_fault(out: &mut String, fault: SettingsFault) -> Result<(), AllocError> {
    let number = fault.number();
    let name = fault.name();
    match fault.inner() {
        Some((inner, inner_name)) => writeln!(out, "{number} {name} {inner} {inner_name}"),
        None => writeln!(out, "{number} {name}"),
    }
}
