//! Connections that are counted.
//!
//! The fields of a listener and of a connection are private, so a body elsewhere accepts and serves
//! by these calls alone, and a connection that was accepted can't be let go: it has to be served.
ghost use Rattle.std.specs.Prelude.{◌≡◌};
ghost use Rattle.service_core.specs.Leaves.{LeavesDesk};
ghost use Rattle.service_core.specs.Seen.{settings_of, tables_of};
ghost use Rattle.desk_program.specs.Listening.{AnswersAt, is_answered};

use service_core::Desk;
use std::alloc::Global;
use std::cell::RefCell;
use std::io::{self, BufReader, Read, Write};
use std::net::OpenListener;
use std::time::Clock;
use store_core::Backend;
use stream_core::{CountedReader, CountedWriter};
use wire_core::{Routes, ServeFault, serve_one_counted};

/// A listener, how often it was asked for a connection, how many it gave, how they ended, and whether
/// it failed to give one.
#[derive(Drop)]
pub struct CountedListener<'l, L> {
    listener: &'l L,
    asked: u64,
    accepted: u64,
    answered: u64,
    unread: u64,
    failed: bool,
}

/// A connection that was accepted, and the minute at which it is answered. There is no other way to
/// be rid of it than to have it served.
pub struct Connection<T> {
    stream: T,
    minute: u32,
}

impl<'l, L: OpenListener> CountedListener<'l, L> {
    ghost use Rattle.std.specs.Prelude.{◌≡◌, ◌<◌, ◌+◌};
    ghost use Rattle.service_core.specs.Seen.{settings_of, tables_of};
    ghost use Rattle.desk_program.specs.Listening.{Accepts, AnswersAt, IsUncalled, Serves};
    ghost use Rattle.desk_program.specs.Listening.{accepted_of, answered_of, asked_of};
    ghost use Rattle.desk_program.specs.Listening.{has_accept_failed};
    ghost use Rattle.desk_program.specs.Listening.{is_answered, minute_of, unread_of};

    /// A listener that wasn't called so far.
    pub fn new(listener: &'l L) -> CountedListener<'l, L>
        ensures { IsUncalled result }
    {
        CountedListener {
            listener,
            asked: 0,
            accepted: 0,
            answered: 0,
            unread: 0,
            failed: false,
        }
    }

    /// How often it was asked for a connection.
    pub fn asked(&self) -> u64
        ensures { result ≡ asked_of self.now }
    {
        self.asked
    }

    /// How many connections were accepted.
    pub fn accepted(&self) -> u64
        ensures { result ≡ accepted_of self.now }
    {
        self.accepted
    }

    /// Of how many connections the message was answered, though the reply may not have gone out
    /// whole.
    pub fn answered(&self) -> u64
        ensures { result ≡ answered_of self.now }
    {
        self.answered
    }

    /// In how many connections a read failed, so that nothing was done.
    pub fn unread(&self) -> u64
        ensures { result ≡ unread_of self.now }
    {
        self.unread
    }

    /// Whether a connection couldn't be accepted.
    pub fn failed(&self) -> bool
        ensures { result ≡ has_accept_failed self.now }
    {
        self.failed
    }

    /// One accept: the connection, with the clock's minute once it was accepted; or none where it
    /// failed.
    pub fn accept<K: Clock>(&mut self, clock: &K) -> Option<Connection<L::Stream>>
        requires asked { asked_of self.old < 4294967296 }
        requires accepted { accepted_of self.old < 4294967296 }
        ensures { Accepts self.old self.new result }
    {
        self.asked += 1;
        match self.listener.accept() {
            Ok((stream, _)) => {
                self.accepted += 1;
                let minute = minute_of(clock);
                Some(Connection { stream, minute })
            }
            Err(_) => {
                self.failed = true;
                None
            }
        }
    }

    /// Serves the message of a connection at its minute, as `serve_one` does. What it sends is read
    /// ahead, if there is memory for that.
    pub fn serve<S: Backend>(
        &mut self,
        alloc: Global,
        routes: Option<&Routes>,
        connection: Connection<L::Stream>,
        desk: &mut Desk<S>,
    ) -> Result<(), ServeFault>
    where
        L::Stream: Read + Write,
        requires { answered_of self.old + unread_of self.old < 4294967296 }
        ensures counted { Serves self.old self.new result }
        ensures one { AnswersAt (settings_of S.Store desk.old) (minute_of connection)
            (is_answered result) (tables_of S.Store desk.old) (tables_of S.Store desk.new) }
        ensures left { LeavesDesk S.Store desk.old desk.new }
    {
        let Connection { stream, minute } = connection;
        let ended = serve_stream(alloc, routes, stream, minute, desk);
        self.note(ended);
        ended
    }

    /// Counts how a connection ended.
    fn note(&mut self, ended: Result<(), ServeFault>)
        requires { answered_of self.old + unread_of self.old < 4294967296 }
        ensures { Serves self.old self.new ended }
    {
        match ended {
            Ok(()) | Err(ServeFault::Write | ServeFault::NoMemory) => self.answered += 1,
            Err(ServeFault::Read) => self.unread += 1,
        }
    }
}

/// The clock's minute since 1970-01-01 00:00 UTC, or 0 where it gives none.
fn minute_of<K: Clock>(clock: &K) -> u32 {
    match clock.since_1970() {
        Ok(since) => u32::try_from(since.as_secs() / 60).unwrap_or(0),
        Err(_) => 0,
    }
}

/// Serves the message of a stream, which is read ahead, if there is memory for that.
fn serve_stream<T: Read + Write + Drop, S: Backend>(
    alloc: Global,
    routes: Option<&Routes>,
    stream: T,
    moment: u32,
    desk: &mut Desk<S>,
) -> Result<(), ServeFault>
    ensures one { AnswersAt (settings_of S.Store desk.old) moment (is_answered result)
        (tables_of S.Store desk.old) (tables_of S.Store desk.new) }
    ensures left { LeavesDesk S.Store desk.old desk.new }
{
    let stream = RefCell::new(stream);
    let mut output = Half { stream: &stream };
    match BufReader::new(alloc, Half { stream: &stream }) {
        Ok(mut reader) => serve_by(alloc, routes, &mut reader, &mut output, moment, desk),
        Err(_) => {
            let mut input = Half { stream: &stream };
            serve_by(alloc, routes, &mut input, &mut output, moment, desk)
        }
    }
}

/// Serves the message with which a reader's stream begins.
fn serve_by<R: Read, W: Write, S: Backend>(
    alloc: Global,
    routes: Option<&Routes>,
    reader: &mut R,
    writer: &mut W,
    moment: u32,
    desk: &mut Desk<S>,
) -> Result<(), ServeFault>
    ensures one { AnswersAt (settings_of S.Store desk.old) moment (is_answered result)
        (tables_of S.Store desk.old) (tables_of S.Store desk.new) }
    ensures left { LeavesDesk S.Store desk.old desk.new }
{
    let mut reader = CountedReader::new(reader);
    let mut output = CountedWriter::new(writer);
    serve_one_counted(alloc, routes, &mut reader, &mut output, moment, desk)
}

/// The side of a stream that is read, or the one that is written: they take turns.
#[derive(Drop)]
struct Half<'s, T> {
    stream: &'s RefCell<T>,
}

impl<T: Read> Read for Half<'_, T> {
    fn read(&mut self, buf: &mut [u8]) -> io::Result<usize> {
        match self.stream.try_borrow_mut() {
            Ok(mut stream) => stream.read(buf),
            Err(_) => Err(io::Error::from(io::ErrorKind::Other)),
        }
    }
}

impl<T: Write> Write for Half<'_, T> {
    fn write(&mut self, buf: &[u8]) -> io::Result<usize> {
        match self.stream.try_borrow_mut() {
            Ok(mut stream) => stream.write(buf),
            Err(_) => Err(io::Error::from(io::ErrorKind::Other)),
        }
    }

    fn flush(&mut self) -> io::Result<()> {
        match self.stream.try_borrow_mut() {
            Ok(mut stream) => stream.flush(),
            Err(_) => Err(io::Error::from(io::ErrorKind::Other)),
        }
    }
}
