//! A server's network by epoll, and its clock.
#![tactic(auto)]

ghost use Rattle.std.specs.Prelude.{◌≡◌, ◌⊎◌, ℕ, IfOk, List, codes};
ghost use Rattle.log_core.specs.Log.{line_text, stamp_text};

use log_core::{put_line, stamp_of};
use mio::event::Event;
use mio::net::{TcpListener, TcpStream};
use mio::{Events, Interest, Poll, Token};
use server_core::{Host, NetFault, Readiness};
use std::alloc::{AllocError, Global};
use std::io;
use std::io::{ErrorKind, Read, Write};
use std::net::{Net, Shutdown, SocketAddr};
use std::time::{Clock, Duration};

/// Under what the listener is watched.
const LISTENER: usize = usize::MAX;

/// How often an accept is tried again whose connection was gone.
const TRIES: u32 = 16;

/// The most events of one wait.
const EVENTS: usize = 1_024;

/// A listener, and what it has accepted.
#[derive(Drop)]
pub struct PollHost<'r, R> {
    rt: &'r R,
    poll: Poll,
    events: Events,
    listener: TcpListener,
    log: bool,
    line: Vec<u8>,
    failed: u64,
    wait_failed: bool,
}

impl<'r, R: Net + Clock + Print> PollHost<'r, R> {
    /// Listens on this address. With a log, a line is printed for each message that is answered.
    pub fn listen(
        alloc: Global,
        rt: &'r R,
        address: SocketAddr,
        log: bool,
    ) -> io::Result<PollHost<'r, R>> {
        let mut listener = TcpListener::bind(rt, address)?;
        let poll = Poll::new(rt)?;
        poll.registry()
            .register(&mut listener, Token(LISTENER), Interest::READABLE)?;
        let events = events_for(alloc)?;
        Ok(PollHost {
            rt,
            poll,
            events,
            listener,
            log,
            line: Vec::new(alloc),
            failed: 0,
            wait_failed: false,
        })
    }

    /// The address that is listened on.
    pub fn address(&self) -> io::Result<SocketAddr> {
        self.listener.local_addr()
    }
}

fn events_for(alloc: Global) -> io::Result<Events> {
    match Events::with_capacity(alloc, EVENTS) {
        Ok(events) => Ok(events),
        Err(_) => Err(io::Error::from(ErrorKind::OutOfMemory)),
    }
}

/// The next connection that waits, watched under this place. One that is gone when it is accepted is
/// passed over.
fn next_of(
    listener: &TcpListener,
    poll: &Poll,
    place: usize,
) -> Result<Option<TcpStream>, NetFault> {
    for _try in 0..TRIES {
        match listener.accept() {
            Ok((stream, _)) => return watch(poll, stream, place),
            Err(fault) => match fault.kind() {
                ErrorKind::WouldBlock => return Ok(None),
                ErrorKind::Interrupted
                | ErrorKind::ConnectionAborted
                | ErrorKind::ConnectionReset => {}
                _ => return Err(NetFault),
            },
        }
    }
    Err(NetFault)
}

/// Watches a connection under this place.
fn watch(poll: &Poll, stream: TcpStream, place: usize) -> Result<Option<TcpStream>, NetFault> {
    let mut stream = stream;
    let both = Interest::READABLE | Interest::WRITABLE;
    match poll.registry().register(&mut stream, Token(place), both) {
        Ok(()) => Ok(Some(stream)),
        Err(_) => Err(NetFault),
    }
}

/// Marks what streams became ready for. Whether a connection may wait.
fn mark_all(events: &Events, marks: &mut [Readiness]) -> bool {
    let mut waiting = false;
    for event in events {
        let Token(place) = event.token();
        if place == LISTENER {
            waiting = true;
        } else if place < marks.len() {
            mark_one(event, &mut marks[place]);
        }
    }
    waiting
}

fn mark_one(event: &Event, mark: &mut Readiness) {
    if event.is_readable() || event.is_read_closed() || event.is_error() {
        mark.readable = true;
    }
    if event.is_writable() || event.is_write_closed() || event.is_error() {
        mark.writable = true;
    }
}

impl<R: Net + Clock + Print> Host for PollHost<'_, R> {
    type Stream = TcpStream;

    ghost use Rattle.std.specs.Prelude.{None};

    ghost told = { λ host. record {
      failed = host.failed;
      wait_failed = host.wait_failed;
      moments = None;
      minutes = None;
      lines = None;
    } };

    fn accept(&mut self, place: usize) -> Result<Option<TcpStream>, NetFault> {
        let accepted = next_of(&self.listener, &self.poll, place);
        self.failed = if accepted.is_err() {
            self.failed.saturating_add(1)
        } else {
            0
        };
        accepted
    }

    fn read(
        &mut self,
        _place: usize,
        stream: &mut TcpStream,
        buffer: &mut [u8],
    ) -> io::Result<usize> {
        stream.read(buffer)
    }

    fn write(&mut self, _place: usize, stream: &mut TcpStream, bytes: &[u8]) -> io::Result<usize> {
        stream.write(bytes)
    }

    fn shut(&mut self, stream: &TcpStream) {
        let _shut = stream.shutdown(Shutdown::Write);
    }

    fn wait_moment(&mut self) -> u64 {
        self.micros() / 1000
    }

    fn wait(&mut self, milliseconds: u64, marks: &mut [Readiness]) -> Result<bool, NetFault> {
        let timeout = Duration::from_millis(milliseconds);
        match self.poll.poll(&mut self.events, Some(timeout)) {
            Ok(()) => Ok(mark_all(&self.events, marks)),
            Err(fault) => match fault.kind() {
                ErrorKind::Interrupted => Ok(false),
                _ => {
                    self.wait_failed = true;
                    Err(NetFault)
                }
            },
        }
    }

    fn micros(&mut self) -> u64 {
        match self.rt.monotonic() {
            Ok(since) => u64::try_from(since.as_micros()).unwrap_or(0),
            Err(_) => 0,
        }
    }

    fn moment(&mut self) -> u64 {
        self.micros() / 1000
    }

    fn minute(&mut self) -> u32 {
        match self.rt.since_1970() {
            Ok(since) => u32::try_from(since.as_secs() / 60).unwrap_or(0),
            Err(_) => 0,
        }
    }

    fn log(&mut self, _minute: u32, note: &[u8], bytes: u64, micros: u64) {
        if self.log {
            let seconds = match self.rt.since_1970() {
                Ok(since) => since.as_secs(),
                Err(_) => 0,
            };
            if fill_line(&mut self.line, seconds, note, bytes, micros).is_ok() {
                let _printed = io::writer(self.rt).write_all(self.line.as_slice());
            }
        }
    }
}

/// The line of a message that was answered at this second since 1970-01-01 00:00 UTC, in place of
/// what was there. A dash stands for a time that is none of the desk's.
fn fill_line(
    line: &mut Vec<u8>,
    seconds: u64,
    note: &[u8],
    bytes: u64,
    micros: u64,
) -> Result<(), AllocError>
    ensures { IfOk result (λ _. (stamp : List ℕ)
        × (line.new.items ≡ line_text stamp note.now bytes micros)
        × ((stamp ≡ stamp_text seconds) ⊎ (stamp ≡ codes "-"))) }
{
    line.clear();
    match stamp_of(seconds) {
        Some(stamp) => put_line(line, &stamp, note, bytes, micros),
        None => put_line(line, b"-", note, bytes, micros),
    }
}
