//! What is done on a file of tables: a server's work, or one command.
ghost use Rattle.std.specs.Prelude.{◌≡◌, false};

use crate::files::read_settings;
use crate::server::serve_over;
use crate::single::run_over;
use desk_program::{OneCommand, Serving, tell_input_fault, tell_store_fault};
use sqlite::Connection;
use std::io::{self, Write};
use store_core::{Backend, StoreFault};
use stream_core::CountedWriter;

/// What the program's words ask for on a file of tables.
#[derive(Clone, Copy)]
pub enum Job<'j> {
    Serve(&'j Serving<'j>),
    Run(&'j OneCommand<'j>),
}

impl<'j> Job<'j> {
    /// The settings file.
    fn settings(self) -> &'j str {
        match self {
            Job::Serve(serving) => serving.settings,
            Job::Run(asked) => asked.settings,
        }
    }

    /// The file of tables.
    fn tables(self) -> &'j str {
        match self {
            Job::Serve(serving) => serving.tables,
            Job::Run(asked) => asked.tables,
        }
    }

    /// Does it over these tables, and gives them back.
    fn over<S: Backend, W: Write>(
        self,
        rt: &HostRuntime,
        settings: &[u8],
        tables: Connection<S>,
        output: &mut W,
    ) -> (u8, Connection<S>)
        requires { tables.in_transaction ≡ false }
    {
        match self {
            Job::Serve(serving) => serve_over(rt, serving, settings, tables, output),
            Job::Run(asked) => run_over(rt, asked, settings, tables, output),
        }
    }
}

/// Reads the settings, opens the tables, does the job and closes the tables.
pub fn run(rt: &HostRuntime, job: Job<'_>) -> u8 {
    match read_settings(rt, job.settings()) {
        Ok(settings) => run_on_file(rt, job, settings.as_slice()),
        Err(fault) => tell_input_fault(fault, &mut CountedWriter::new(&mut io::writer(rt))),
    }
}

/// Does the job on the file of tables. What it changed is committed before it is told; closing only
/// copies it from the log into the file, so its fault is passed over.
fn run_on_file(rt: &HostRuntime, job: Job<'_>, settings: &[u8]) -> u8 {
    let mut output = io::writer(rt);
    let Ok(tables) = Connection::open(rt, job.tables()) else {
        return tell_store_fault(StoreFault::Refused, &mut CountedWriter::new(&mut output));
    };
    let (status, tables) = job.over(rt, settings, tables, &mut output);
    let _closed = tables.close();
    status
}
