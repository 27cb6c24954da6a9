//! One command on tables.
ghost use Rattle.std.specs.Prelude.{◌≡◌, false};

use desk_program::{OneCommand, run_one};
use sqlite::Connection;
use std::io::Write;
use store_core::{Backend, Store};
use stream_core::CountedWriter;

/// Runs the command over these tables, and gives them back.
pub fn run_over<S: Backend, W: Write>(
    rt: &HostRuntime,
    asked: &OneCommand<'_>,
    settings: &[u8],
    tables: Connection<S>,
    output: &mut W,
) -> (u8, Connection<S>)
    requires { tables.in_transaction ≡ false }
{
    let mut output = CountedWriter::new(output);
    let (status, store) = run_one(
        rt.alloc(),
        settings,
        Store::adopt(tables),
        asked.caller,
        asked.at,
        asked.words,
        &mut output,
    );
    (status, store.release())
}
