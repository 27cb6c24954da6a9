//! Messages that go over connections in memory, to a server that answers them one after the other.

use crate::calls::{Served, serve_connections};
use crate::failure::Failure;
use crate::served::Sent;
use crate::streams::Slow;
use case_text::{number, replaced, str_of};
use service_core::Desk;
use std::alloc::Global;
use std::cell::{Cell, RefCell};
use std::io::{Error, ErrorKind, Read, Result, Write};
use std::net::{Ipv4Addr, OpenListener, SocketAddr, SocketAddrV4};
use std::time::{Clock, Duration};
use store_core::Backend;

/// What the clock of a server does.
#[derive(Clone, Copy)]
enum Ticking {
    /// It tells the moment of the first message always.
    Stands,
    /// It tells that first, and each time a minute more.
    Ticks,
    /// It tells nothing.
    Fails,
}

/// A server over connections in memory.
#[derive(Clone, Copy)]
pub(crate) struct Server {
    ticking: Ticking,
    /// After how many accepts one fails, if one does.
    fails_at: Option<u32>,
    /// Whether the second connection fails after three reads, and the third after five writes.
    breaks: bool,
}

/// No connection fails.
const TICKS: Server = Server {
    ticking: Ticking::Ticks,
    fails_at: None,
    breaks: false,
};

/// The server that words name, if they do:
///
/// | Words | The server |
/// |---|---|
/// | `clock stands` | its clock tells the moment of the first message always |
/// | `clock ticks` | it tells that first, and each time a minute more |
/// | `clock fails` | it tells nothing |
/// | `breaks` | it ticks; the second connection fails after 3 reads, the third after 5 writes |
/// | `accept_fails N` | it ticks; an accept fails after N |
pub(crate) fn server_of(kind: &str, rest: &str) -> std::result::Result<Option<Server>, Failure> {
    match kind {
        "clock" => Ok(Some(by_clock(rest))),
        "breaks" => Ok(Some(Server {
            breaks: true,
            ..TICKS
        })),
        "accept_fails" => Ok(Some(Server {
            fails_at: Some(number(rest)?),
            ..TICKS
        })),
        _ => Ok(None),
    }
}

fn by_clock(word: &str) -> Server {
    let ticking = match word {
        "stands" => Ticking::Stands,
        "ticks" => Ticking::Ticks,
        _ => Ticking::Fails,
    };
    Server { ticking, ..TICKS }
}

/// Serves the messages, each over a connection of its own. Adds what was sent over all of them, and
/// how the server ended.
pub(crate) fn answer_by_connections<S: Backend>(
    alloc: Global,
    out: &mut String,
    sent: &[Sent],
    server: Server,
    desk: &mut Desk<S>,
) -> std::result::Result<(), Failure> {
    let taken = RefCell::new(Vec::new(alloc));
    let served = serve(alloc, sent, server, &taken, desk);
    let taken = taken.into_inner();
    out.push_str(replaced(alloc, str_of(taken.as_slice()), "\r", "\\r")?.as_str())?;
    put_served(out, served)
}

/// Serves the messages, and keeps what is sent.
fn serve<S: Backend>(
    alloc: Global,
    sent: &[Sent],
    server: Server,
    taken: &RefCell<Vec<u8>>,
    desk: &mut Desk<S>,
) -> Served {
    let listener = Listener {
        sent,
        server,
        taken,
        accepts: Cell::new(0),
    };
    let clock = CaseClock {
        first: first_of(sent),
        ticking: server.ticking,
        readings: Cell::new(0),
    };
    serve_connections(alloc, &listener, count_of(sent), &clock, desk)
}

/// The moment of the first message.
fn first_of(sent: &[Sent]) -> u32 {
    match sent.first() {
        Some(message) => message.0,
        None => 0,
    }
}

/// How many messages there are.
fn count_of(sent: &[Sent]) -> u32 {
    u32::try_from(sent.len()).unwrap_or(u32::MAX)
}

/// Adds how a server ended.
pub(crate) fn put_served(out: &mut String, served: Served) -> std::result::Result<(), Failure> {
    let Served {
        status,
        accepted,
        answered,
        unread,
    } = served;
    write!(out, "status {status}: {accepted} accepted")?;
    writeln!(out, ", {answered} answered, {unread} unread")?;
    Ok(())
}

/// Gives a connection for each message.
#[derive(Drop)]
struct Listener<'c> {
    sent: &'c [Sent],
    server: Server,
    taken: &'c RefCell<Vec<u8>>,
    accepts: Cell<u32>,
}

impl<'c> OpenListener for Listener<'c> {
    type Stream = Wire<'c>;

    fn accept(&self) -> Result<(Wire<'c>, SocketAddr)> {
        let turn = self.accepts.get();
        self.accepts.set(turn.saturating_add(1));
        if self.server.fails_at == Some(turn) {
            return Err(Error::from(ErrorKind::ConnectionAborted));
        }
        match self.sent.get(turn as usize) {
            Some(message) => Ok((self.wire(turn, message.1.as_slice()), address())),
            None => Err(Error::from(ErrorKind::WouldBlock)),
        }
    }
}

impl<'c> Listener<'c> {
    /// The connection of a turn, over which these bytes come.
    fn wire(&self, turn: u32, bytes: &'c [u8]) -> Wire<'c> {
        let breaks = self.server.breaks;
        Wire {
            reader: if breaks && turn == 1 {
                Slow::failing(bytes, 3)
            } else {
                Slow::over(bytes)
            },
            taken: self.taken,
            writes: 0,
            falters_at: if breaks && turn == 2 { 5 } else { u32::MAX },
        }
    }
}

fn address() -> SocketAddr {
    SocketAddr::V4(SocketAddrV4::new(Ipv4Addr::new(127, 0, 0, 1), 1))
}

/// A connection: what comes over it, and what goes, a byte at a time, to the end of what went over
/// those before. A write may fail.
#[derive(Drop)]
struct Wire<'c> {
    reader: Slow<'c>,
    taken: &'c RefCell<Vec<u8>>,
    writes: u32,
    falters_at: u32,
}

impl Wire<'_> {
    fn keep(&self, byte: u8) -> Result<()> {
        match self.taken.try_borrow_mut() {
            Ok(mut taken) => Ok(taken.push(byte)?),
            Err(_) => Err(Error::from(ErrorKind::BrokenPipe)),
        }
    }
}

impl Read for Wire<'_> {
    fn read(&mut self, buf: &mut [u8]) -> Result<usize> {
        self.reader.read(buf)
    }
}

impl Write for Wire<'_> {
    fn write(&mut self, buf: &[u8]) -> Result<usize> {
        let falters = self.writes == self.falters_at;
        self.writes = self.writes.saturating_add(1);
        match buf.first() {
            Some(byte) if !falters => {
                self.keep(*byte)?;
                Ok(1)
            }
            _ => Err(Error::from(ErrorKind::BrokenPipe)),
        }
    }

    fn flush(&mut self) -> Result<()> {
        Ok(())
    }
}

/// The clock of a server.
#[derive(Drop)]
struct CaseClock {
    first: u32,
    ticking: Ticking,
    readings: Cell<u32>,
}

impl Clock for CaseClock {
    fn monotonic(&self) -> Result<Duration> {
        Err(Error::from(ErrorKind::Unsupported))
    }

    fn since_1970(&self) -> Result<Duration> {
        let readings = self.readings.get();
        self.readings.set(readings.saturating_add(1));
        let later = match self.ticking {
            Ticking::Stands => 0,
            Ticking::Ticks => readings,
            Ticking::Fails => return Err(Error::from(ErrorKind::Other)),
        };
        let minute = u64::from(self.first) + u64::from(later);
        Ok(Duration::from_secs(minute * 60))
    }
}
