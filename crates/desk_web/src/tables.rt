//! A server over a file of tables.

use crate::files::read_settings;
use crate::options::Asked;
use crate::server::serve_over;
use check_core::files::tell_why;
use desk_program::{tell_input_fault, tell_store_fault};
use sqlite::Connection;
use std::io;
use store_core::StoreFault;
use stream_core::CountedWriter;

/// Reads the settings, opens the tables, serves, and closes the tables. Where there is no desk, the
/// standard error says where the fault stands, beside what is printed.
pub fn run(rt: &HostRuntime, asked: &Asked<'_>) -> u8 {
    match read_settings(rt, asked.settings) {
        Ok(settings) => run_on_file(rt, asked, settings.as_slice()),
        Err(fault) => tell_input_fault(fault, &mut CountedWriter::new(&mut io::writer(rt))),
    }
}

/// Serves over the file of tables. What it changed is committed before it is told; closing only
/// copies it from the log into the file, so its fault is passed over.
fn run_on_file(rt: &HostRuntime, asked: &Asked<'_>, settings: &[u8]) -> u8 {
    let mut output = io::writer(rt);
    let Ok(tables) = Connection::open(rt, asked.tables) else {
        tell_why(rt, asked.tables, settings);
        return tell_store_fault(StoreFault::Refused, &mut CountedWriter::new(&mut output));
    };
    let (status, tables) = serve_over(rt, asked, settings, tables, &mut output);
    match tables {
        Some(tables) => {
            let _closed = tables.close();
        }
        None => tell_why(rt, asked.tables, settings),
    }
    status
}
