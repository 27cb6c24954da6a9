//! The calls of the product whose contracts say much, each made here once, so that no function that
//! tells what came of one has to carry along all that is said of it.

use crate::asks::Ask;
use desk_core::{Answer, Command, Refusal};
use desk_program::{
    CountedListener, InputFault, Memory, open_desk, open_desk_whole, run_one, run_script_counted,
    serve_on, take_settings,
};
use load_core::{Loaded, Plan, Progress};
use service_core::{AttachFault, Desk, StreamFault};
use settings_core::{Settings, SettingsFault};
use std::alloc::{AllocError, Global};
use std::io::{Read, Write};
use std::net::OpenListener;
use std::time::Clock;
use store_core::{Backend, Store, StoreFault};
use stream_core::{CountedReader, CountedWriter};
use wire_core::{ServeFault, serve_one};

/// What comes of a command.
pub(crate) type Outcome = Result<Answer, Refusal>;

/// Reads settings.
pub fn read_settings(alloc: Global, text: &str) -> Result<Settings, SettingsFault> {
    Settings::read(alloc, text.as_bytes())
}

pub(crate) fn take<R: Read>(alloc: Global, reader: &mut R) -> Result<Vec<u8>, InputFault> {
    take_settings(alloc, reader)
}

/// Makes the tables that are missing.
pub fn make_tables<S: Backend>(alloc: Global, store: &mut Store<S>) -> Result<(), StoreFault> {
    store.create_schema(alloc)
}

pub(crate) fn version<S: Backend>(store: &mut Store<S>) -> Result<u32, StoreFault> {
    store.version()
}

/// Attaches settings to tables; else the fault, and the tables.
pub fn attach<S: Backend>(
    alloc: Global,
    store: Store<S>,
    settings: Settings,
) -> Result<Desk<S>, (AttachFault, Store<S>)> {
    Desk::attach(alloc, store, settings)
}

pub(crate) fn open<S: Backend + Drop, W: Write>(
    alloc: Global,
    store: Store<S>,
    settings: &[u8],
    writer: &mut W,
) -> Result<Desk<S>, u8> {
    open_desk(alloc, store, settings, &mut CountedWriter::new(writer))
}

pub(crate) fn open_whole<S: Backend, W: Write>(
    alloc: Global,
    store: Store<S>,
    settings: &[u8],
    writer: &mut W,
) -> Result<Desk<S>, (u8, Store<S>)> {
    open_desk_whole(alloc, store, settings, &mut CountedWriter::new(writer))
}

pub(crate) fn execute<S: Backend>(alloc: Global, desk: &mut Desk<S>, ask: &Ask) -> Outcome {
    desk.execute(alloc, ask.0, ask.1.as_str(), &ask.2)
}

pub(crate) fn execute_all<S: Backend>(
    alloc: Global,
    desk: &mut Desk<S>,
    asks: &[Ask],
) -> Result<Vec<Outcome>, AllocError> {
    desk.execute_all(alloc, asks)
}

pub(crate) fn limit_steps<S: Backend>(desk: &mut Desk<S>, limit: Option<u32>) {
    desk.set_step_limit(limit);
}

/// None where it isn't a list that is asked for.
pub(crate) fn write_list<S: Backend, W: Write>(
    alloc: Global,
    desk: &mut Desk<S>,
    ask: &Ask,
    writer: &mut W,
) -> Option<Result<(), StreamFault>> {
    match &ask.2 {
        Command::List { .. } | Command::Overdue => {
            Some(desk.stream(alloc, ask.0, ask.1.as_str(), &ask.2, writer))
        }
        _ => None,
    }
}

pub(crate) fn serve<R: Read, W: Write, S: Backend>(
    alloc: Global,
    reader: &mut R,
    writer: &mut W,
    moment: u32,
    desk: &mut Desk<S>,
) -> Result<(), ServeFault> {
    serve_one(alloc, reader, writer, moment, desk)
}

/// How a script ended, how often its streams were called by their own count, and whether a write
/// failed.
#[derive(Clone, Copy)]
pub(crate) struct Ended {
    pub(crate) status: u8,
    pub(crate) failed: bool,
    pub(crate) reads: u64,
    pub(crate) writes: u64,
}

pub(crate) fn run_counted<R: Read, W: Write>(
    alloc: Global,
    reader: &mut R,
    writer: &mut W,
) -> Ended {
    let mut reader = CountedReader::new(reader);
    let mut output = CountedWriter::new(writer);
    let status = run_script_counted(alloc, &mut reader, &mut output, Memory::GivenBack);
    Ended {
        status,
        failed: output.failed(),
        reads: reader.reads(),
        writes: output.writes(),
    }
}

/// What is run by itself: the settings, the caller, the moment and the words of its command.
#[derive(Clone, Copy)]
pub(crate) struct Single<'s> {
    pub(crate) settings: &'s [u8],
    pub(crate) caller: &'s str,
    pub(crate) at: u32,
    pub(crate) words: &'s [String],
}

/// Runs a command by itself: its status, whether a write failed, and the store.
pub(crate) fn run_alone<S: Backend, W: Write>(
    alloc: Global,
    store: Store<S>,
    single: Single<'_>,
    writer: &mut W,
) -> (u8, bool, Store<S>) {
    let Single {
        settings,
        caller,
        at,
        words,
    } = single;
    let mut output = CountedWriter::new(writer);
    let (status, store) = run_one(alloc, settings, store, caller, at, words, &mut output);
    (status, output.failed(), store)
}

pub(crate) fn load<S: Backend, R: Read, W: Write, P: Progress>(
    alloc: Global,
    desk: &mut Desk<S>,
    plan: Plan,
    reader: &mut R,
    writer: &mut W,
    progress: &mut P,
) -> Loaded {
    let mut output = CountedWriter::new(writer);
    load_core::load(alloc, desk, plan, reader, &mut output, progress)
}

/// How a server ended, and what its listener counted.
#[derive(Clone, Copy)]
pub(crate) struct Served {
    pub(crate) status: u8,
    pub(crate) accepted: u64,
    pub(crate) answered: u64,
    pub(crate) unread: u64,
}

pub(crate) fn serve_connections<L: OpenListener, K: Clock, S: Backend>(
    alloc: Global,
    listener: &L,
    count: u32,
    clock: &K,
    desk: &mut Desk<S>,
) -> Served
where
    L::Stream: Read + Write,
{
    let mut counted = CountedListener::new(listener);
    let status = serve_on(alloc, &mut counted, count, clock, desk);
    Served {
        status,
        accepted: counted.accepted(),
        answered: counted.answered(),
        unread: counted.unread(),
    }
}
