//! Cases of a script that is read and written by streams that do less than they could, or fail.

use crate::calls::{Ended, run_counted};
use crate::failure::Failure;
use crate::streams::{Faltering, Slow};
use case_text::{Answering, Case, Words, answer_lines, str_of};
use std::alloc::Global;

/// Runs a script once for each line of the part `streams`, which says over what:
///
/// | Line | The script is run over |
/// |---|---|
/// | `reader` | a reader that gives a byte at a time |
/// | `reader_fails N` | one that fails after N reads |
/// | `endless` | a reader that never ends, in place of the script |
/// | `writer_fails N` | a writer that takes a byte at a time, and fails after N writes |
/// | `writer_stops N` | one that takes nothing then |
pub(crate) fn run_case(alloc: Global, out: &mut String, case: &Case<'_>) -> Result<(), Failure> {
    let script = case.part("script").unwrap_or(b"");
    answer_lines(alloc, out, &mut Script(script), case.text("streams"))
}

/// A script that is run over the readers and writers that lines name.
#[derive(Clone, Copy)]
struct Script<'s>(&'s [u8]);

impl Answering for Script<'_> {
    type Failure = Failure;

    fn answer(&mut self, alloc: Global, out: &mut String, line: &str) -> Result<(), Failure> {
        let script = self.0;
        let mut words = Words::of(line);
        match words.next() {
            "reader" => slow(alloc, out, line, Slow::over(script)),
            "reader_fails" => slow(alloc, out, line, Slow::failing(script, words.count()?)),
            "endless" => slow(alloc, out, line, Slow::endless(b"")),
            kind => by_writer(alloc, out, line, script, kind, words.count()?),
        }
    }
}

/// Runs the script over the writer that a word names.
fn by_writer(
    alloc: Global,
    out: &mut String,
    line: &str,
    script: &[u8],
    kind: &str,
    falters_at: u32,
) -> Result<(), Failure> {
    match kind {
        "writer_fails" => faltering(alloc, out, line, script, falters_at, true),
        "writer_stops" => faltering(alloc, out, line, script, falters_at, false),
        _ => Err(Failure::BadLine),
    }
}

fn slow(alloc: Global, out: &mut String, line: &str, reader: Slow<'_>) -> Result<(), Failure> {
    let mut reader = reader;
    let mut writer = Faltering::never(alloc);
    let ended = run_counted(alloc, &mut reader, &mut writer);
    let calls = (reader.reads, ended.reads);
    tell(out, line, ended, calls, writer.taken.as_slice())
}

fn faltering(
    alloc: Global,
    out: &mut String,
    line: &str,
    script: &[u8],
    falters_at: u32,
    fails: bool,
) -> Result<(), Failure> {
    let mut reader = Slow::at_once(script);
    let mut writer = Faltering::after(alloc, falters_at, fails);
    let ended = run_counted(alloc, &mut reader, &mut writer);
    let calls = (writer.writes, ended.writes);
    tell(out, line, ended, calls, writer.taken.as_slice())
}

/// Writes how the script ended, how often the stream was called and how often by the program's
/// count; then what the script wrote, and a line feed.
fn tell(
    out: &mut String,
    line: &str,
    ended: Ended,
    (calls, counted): (u32, u64),
    written: &[u8],
) -> Result<(), Failure> {
    let (status, failed) = (ended.status, ended.failed);
    write!(
        out,
        "{line}: status {status}, failed {failed}, {calls} calls"
    )?;
    writeln!(out, ", {counted} counted\n{}", str_of(written))?;
    Ok(())
}
