//! Cases of loads over one desk, one after the other.
//!
//! What owns much is given back by `drop`, whose proof stands once; at the end of its scope it
//! would be taken apart for each function's own proof.

use crate::calls::{self, open};
use crate::failure::Failure;
use crate::rows::put_brief;
use crate::streams::{Faltering, Slow};
use crate::tables::{Opening, opened};
use case_text::{Case, Words, str_of};
use load_core::{Ending, Plan, Progress};
use service_core::Desk;
use sqlite::Connection;
use std::alloc::Global;
use store_core::{Backend, Store};

/// What is answered where the disk has stopped.
const UNAVAILABLE: &[u8] = b": refused 16 Unavailable\n";

/// The most options of a load.
const OPTIONS: u32 = 4;

/// A load: its settings, its lines, what it is asked for, and when its streams fail.
#[derive(Clone, Copy)]
struct Load<'c> {
    settings: &'c [u8],
    lines: &'c [u8],
    plan: Plan,
    reader_at: Option<u32>,
    writer_at: u32,
}

/// Makes the loads of the part `loads`, each by a line `PLAN PART OPTIONS ..` with the lines of that
/// part, over the tables that the one before left; and tells of each what it printed and how it
/// ended, and at the end what the tables hold. A load that gets no desk is the last.
///
/// The plan is `some` for the answers that tell more than that a command is done, `each` for all,
/// and `stop` for all up to the first refusal. The options are:
///
/// | Option | Says |
/// |---|---|
/// | `from N` | the lines before that one are passed over |
/// | `with PART` | that part has the settings, which else are empty |
/// | `reader_fails N` | the read after N bytes fails |
/// | `writer_fails N` | the write after N bytes fails |
pub(crate) fn run_case<S: Backend + Drop, O: Opening<Connection<S>>>(
    alloc: Global,
    out: &mut String,
    opening: &O,
    case: &Case<'_>,
) -> Result<(), Failure> {
    let store = opened(alloc, opening, case.text("tables"))?;
    run_over(alloc, out, store, case)
}

fn run_over<S: Backend + Drop>(
    alloc: Global,
    out: &mut String,
    store: Store<S>,
    case: &Case<'_>,
) -> Result<(), Failure> {
    let mut store = store;
    for line in case.text("loads").lines() {
        match run_line(alloc, out, store, case, line)? {
            Some(left) => store = left,
            None => return Ok(()),
        }
    }
    let told = put_brief(alloc, out, &mut store);
    drop(store);
    told
}

fn run_line<S: Backend + Drop>(
    alloc: Global,
    out: &mut String,
    store: Store<S>,
    case: &Case<'_>,
    line: &str,
) -> Result<Option<Store<S>>, Failure> {
    match load_of(case, line) {
        Ok(load) => run_load(alloc, out, store, load),
        Err(failure) => {
            drop(store);
            Err(failure)
        }
    }
}

/// The load that a line names.
fn load_of<'c>(case: &'c Case<'_>, line: &str) -> Result<Load<'c>, Failure> {
    let mut words = Words::of(line);
    let plan = plan_of(words.next());
    let mut load = Load {
        settings: b"",
        lines: case.part(words.next()).ok_or(Failure::BadLine)?,
        plan,
        reader_at: None,
        writer_at: u32::MAX,
    };
    for _ in 0..OPTIONS {
        match words.next() {
            "" => return Ok(load),
            "from" => load.plan.passed = u64::from(words.count()?.saturating_sub(1)),
            "with" => load.settings = case.part(words.next()).ok_or(Failure::BadLine)?,
            "reader_fails" => load.reader_at = Some(words.count()?),
            _ => load.writer_at = words.count()?,
        }
    }
    Ok(load)
}

fn plan_of(word: &str) -> Plan {
    Plan {
        passed: 0,
        all: word != "some",
        stop: word == "stop",
    }
}

/// Makes a load over the tables, and gives them back, if there was a desk.
fn run_load<S: Backend + Drop>(
    alloc: Global,
    out: &mut String,
    store: Store<S>,
    load: Load<'_>,
) -> Result<Option<Store<S>>, Failure> {
    let mut writer = Faltering::never(alloc);
    match open(alloc, store, load.settings, &mut writer) {
        Ok(desk) => {
            let mut desk = desk;
            let told = load_on(alloc, out, &mut desk, load);
            let (store, settings) = desk.detach();
            drop(settings);
            match told {
                Ok(()) => Ok(Some(store)),
                Err(failure) => {
                    drop(store);
                    Err(failure)
                }
            }
        }
        Err(status) => {
            let text = str_of(writer.taken.as_slice());
            writeln!(out, "{text}no desk: status {status}")?;
            Ok(None)
        }
    }
}

/// Makes a load on a desk, and tells what it printed and how it ended.
fn load_on<S: Backend>(
    alloc: Global,
    out: &mut String,
    desk: &mut Desk<S>,
    load: Load<'_>,
) -> Result<(), Failure> {
    let mut reader = match load.reader_at {
        Some(reads) => Slow::failing(load.lines, reads),
        None => Slow::over(load.lines),
    };
    let mut writer = Faltering::after(alloc, load.writer_at, true);
    let mut last = Last(load.plan.passed);
    let loaded = calls::load(alloc, desk, load.plan, &mut reader, &mut writer, &mut last);
    let text = str_of(writer.taken.as_slice());
    let (answered, refused) = (loaded.answered, loaded.refused);
    let ending = name_of(loaded.ending);
    write!(out, "{text}{ending}: {answered} answered")?;
    writeln!(out, ", the last is line {}, refused {refused}", last.0)?;
    Ok(())
}

fn name_of(ending: Ending) -> &'static str {
    match ending {
        Ending::Input => "the end",
        Ending::Refused => "a refusal",
        Ending::Read => "a failed read",
        Ending::Write => "a failed write",
    }
}

/// The number of the line that was told last.
#[derive(Drop)]
struct Last(u64);

impl Progress for Last {
    fn told(&mut self, line: u64, _is_done: bool) {
        self.0 = line;
    }
}

/// Loads the lines but for so many, up to the first refusal: how many are answered then. None where
/// that is another one than that the disk has stopped.
pub(crate) fn loaded_on<S: Backend>(
    alloc: Global,
    desk: &mut Desk<S>,
    lines: &str,
    from: usize,
) -> Option<usize> {
    let plan = Plan {
        passed: from as u64,
        all: true,
        stop: true,
    };
    let mut reader = Slow::at_once(lines.as_bytes());
    let mut writer = Faltering::never(alloc);
    let loaded = calls::load(alloc, desk, plan, &mut reader, &mut writer, &mut Last(0));
    let answered = usize::try_from(loaded.answered).ok()?;
    let reached = from.saturating_add(answered);
    if !loaded.refused {
        Some(reached)
    } else if writer.taken.as_slice().ends_with(UNAVAILABLE) {
        reached.checked_sub(1)
    } else {
        None
    }
}
