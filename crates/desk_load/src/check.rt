//! A check of settings and a file of tables.

use crate::files::read_settings;
use crate::options::Asked;
use check_core::files::{Finding, first_finding, warnings_of};
use desk_program::tell_input_fault;
use std::io;
use stream_core::CountedWriter;

/// The exit status where nothing is wrong.
const DONE: u8 = 0;

/// The exit status where the settings have a fault.
const BAD_SETTINGS: u8 = 3;

/// The exit status where the tables have a fault, or a write failed, or there is no memory.
const BAD_TABLES: u8 = 4;

/// Checks the settings and the file of tables, prints what is wrong first, and then a line for each
/// weak token, and answers the exit status: no token changes it.
pub fn run(rt: &HostRuntime, asked: &Asked<'_>) -> u8 {
    match read_settings(rt, asked.settings) {
        Ok(settings) => {
            let status = tell_finding(rt, asked.tables, settings.as_slice());
            warn(rt, status, settings.as_slice())
        }
        Err(fault) => tell_input_fault(fault, &mut CountedWriter::new(&mut io::writer(rt))),
    }
}

/// Prints what is wrong first with settings and a file of tables, and answers the exit status.
fn tell_finding(rt: &HostRuntime, tables: &str, settings: &[u8]) -> u8 {
    match first_finding(rt, tables, settings) {
        Ok(None) => print(rt, DONE, "nothing is wrong"),
        Ok(Some(Finding::Settings(told))) => print(rt, BAD_SETTINGS, told.as_str()),
        Ok(Some(Finding::Tables(told))) => print(rt, BAD_TABLES, told.as_str()),
        Err(_) => print(rt, BAD_TABLES, "out of memory"),
    }
}

/// Prints a line for each weak token of the settings, and answers this status where that succeeds.
fn warn(rt: &HostRuntime, status: u8, settings: &[u8]) -> u8 {
    let Ok(lines) = warnings_of(rt.alloc(), settings) else {
        return print(rt, BAD_TABLES, "out of memory");
    };
    let lines = lines.as_str();
    match print!(rt; "{lines}") {
        Ok(()) => status,
        Err(_) => BAD_TABLES,
    }
}

fn print(rt: &HostRuntime, status: u8, line: &str) -> u8 {
    match println!(rt; "{line}") {
        Ok(()) => status,
        Err(_) => BAD_TABLES,
    }
}
