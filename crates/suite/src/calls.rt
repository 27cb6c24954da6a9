//! The calls of the product whose contracts say much, each made here once, so that no function that
//! tells what came of one has to carry along all that is said of it.

use crate::asks::Ask;
use crate::served::Sent;
use desk_core::{Answer, Command, Refusal};
use desk_program::{run_one, run_script};
use service_core::{AttachFault, Desk};
use settings_core::Settings;
use std::alloc::{AllocError, Global};
use std::io::{Read, Write};
use store_core::{Backend, Store};
use stream_core::CountedWriter;
use wire_core::{Routes, ServeFault, serve_list, serve_one};

/// What comes of a command.
pub(crate) type Outcome = Result<Answer, Refusal>;

/// What comes of a message that is one of a list.
pub(crate) type Reply = Result<Vec<u8>, ServeFault>;

pub(crate) fn attach<S: Backend>(
    alloc: Global,
    store: Store<S>,
    settings: Settings,
) -> Result<Desk<S>, (AttachFault, Store<S>)> {
    Desk::attach(alloc, store, settings)
}

pub(crate) fn execute<S: Backend>(alloc: Global, desk: &mut Desk<S>, ask: &Ask) -> Outcome {
    desk.execute(alloc, ask.0, ask.1.as_str(), &ask.2)
}

pub(crate) fn execute_all<S: Backend>(
    alloc: Global,
    desk: &mut Desk<S>,
    asks: &[Ask],
) -> Result<Vec<Outcome>, AllocError> {
    desk.execute_all(alloc, asks)
}

pub(crate) fn serve<R: Read, W: Write, S: Backend>(
    alloc: Global,
    reader: &mut R,
    writer: &mut W,
    moment: u32,
    desk: &mut Desk<S>,
) -> Result<(), ServeFault> {
    serve_one(alloc, reader, writer, moment, desk)
}

pub(crate) fn serve_all<S: Backend>(
    alloc: Global,
    sent: &[Sent],
    desk: &mut Desk<S>,
) -> Result<Vec<Reply>, AllocError> {
    serve_list(alloc, sent, desk)
}

pub(crate) fn serve_page<S: Backend>(
    alloc: Global,
    routes: Option<&Routes>,
    message: &Sent,
    desk: &mut Desk<S>,
) -> Result<Vec<u8>, AllocError> {
    let read = page_wire::read_sent(alloc, message.1.as_slice());
    let reply = page_wire::answer_sent(alloc, routes, false, &read, message.0, desk);
    drop(read);
    reply
}

pub(crate) fn run<W: Write>(alloc: Global, script: &[u8], writer: &mut W) -> u8 {
    let mut reader = script;
    run_script(alloc, &mut reader, writer)
}

/// What is run by itself: the settings, the caller, the moment and the words of its command.
#[derive(Clone, Copy)]
pub(crate) struct Single<'s> {
    pub(crate) settings: &'s [u8],
    pub(crate) caller: &'s str,
    pub(crate) at: u32,
    pub(crate) words: &'s [String],
}

/// Runs a command by itself: its status, whether a write failed, and the store.
pub(crate) fn run_alone<S: Backend, W: Write>(
    alloc: Global,
    store: Store<S>,
    single: Single<'_>,
    writer: &mut W,
) -> (u8, bool, Store<S>) {
    let Single {
        settings,
        caller,
        at,
        words,
    } = single;
    let mut output = CountedWriter::new(writer);
    let (status, store) = run_one(alloc, settings, store, caller, at, words, &mut output);
    (status, output.failed(), store)
}
