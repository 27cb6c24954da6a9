//! Messages that are served on a desk, in one of several manners.

use crate::calls;
use crate::connections::{Server, answer_by_connections};
use crate::failure::Failure;
use crate::loopback::{answer_beside_one_that_leaves, answer_by_loopback};
use crate::streams::{Faltering, Slow};
use case_text::{replaced, str_of};
use service_core::Desk;
use std::alloc::Global;
use store_core::Backend;
use wire_core::ServeFault;

/// A message at its moment.
pub type Sent = (u32, Vec<u8>);

/// What stands after all replies, where they are followed by what is left of each message.
pub(crate) const LEFT: &str = "left:";

/// The greatest head and the greatest body, a byte a read, and one read more.
const MOST_READS: u32 = 73_729;

/// How messages are served.
#[derive(Clone, Copy)]
pub(crate) enum Manner {
    /// One after the other, over streams that give and take a byte at a time and fail as is said
    /// for the first of them.
    Streams(Failing),
    /// Each over the loopback, at the clock's minute.
    Loopback,
    /// Over the loopback, where the first client sends so many bytes and leaves.
    Leaves(u32),
    /// Each over a connection in memory, by such a server.
    Connections(Server),
    /// Each followed by bytes that never end.
    Endless,
}

/// When a reader or a writer fails: after how many calls, and whether the writer's call fails or
/// takes nothing.
#[derive(Clone, Copy)]
pub(crate) struct Failing {
    reader_at: Option<u32>,
    writer_at: u32,
    writer_fails: bool,
}

/// Neither fails.
const NEVER: Failing = Failing {
    reader_at: None,
    writer_at: u32::MAX,
    writer_fails: true,
};

impl Manner {
    /// A byte at a time.
    pub(crate) const BYTES: Manner = Manner::Streams(NEVER);

    pub(crate) fn streams(reader_at: Option<u32>, writer_at: u32, writer_fails: bool) -> Manner {
        Manner::Streams(Failing {
            reader_at,
            writer_at,
            writer_fails,
        })
    }
}

/// Adds the replies to messages: each with the fault of serving it, if there is one; then, where
/// they are served one after the other, how many bytes of each were left unread.
pub(crate) fn serve<S: Backend>(
    rt: &HostRuntime,
    out: &mut String,
    sent: &[Sent],
    manner: Manner,
    desk: &mut Desk<S>,
) -> Result<(), Failure> {
    match manner {
        Manner::Streams(failing) => one_by_one(rt.alloc(), out, sent, failing, desk),
        Manner::Loopback => answer_by_loopback(rt, out, sent, desk),
        Manner::Leaves(count) => answer_beside_one_that_leaves(rt, out, sent, count, desk),
        Manner::Connections(server) => answer_by_connections(rt.alloc(), out, sent, server, desk),
        Manner::Endless => before_others(rt.alloc(), out, sent, desk),
    }
}

fn one_by_one<S: Backend>(
    alloc: Global,
    out: &mut String,
    sent: &[Sent],
    failing: Failing,
    desk: &mut Desk<S>,
) -> Result<(), Failure> {
    let mut left = String::new(alloc);
    let mut failing = failing;
    for message in sent {
        let rest = by_streams(alloc, out, message, failing, desk)?;
        write!(left, " {rest}")?;
        failing = NEVER;
    }
    writeln!(out, "{LEFT}{}", left.as_str())?;
    Ok(())
}

/// Serves a message over streams, and adds its reply: how many bytes are left unread.
fn by_streams<S: Backend>(
    alloc: Global,
    out: &mut String,
    message: &Sent,
    failing: Failing,
    desk: &mut Desk<S>,
) -> Result<usize, Failure> {
    let bytes = message.1.as_slice();
    let mut reader = match failing.reader_at {
        Some(reads) => Slow::failing(bytes, reads),
        None => Slow::over(bytes),
    };
    let mut writer = Faltering::after(alloc, failing.writer_at, failing.writer_fails);
    let ended = calls::serve(alloc, &mut reader, &mut writer, message.0, desk);
    put_reply(alloc, out, writer.taken.as_slice(), ended)?;
    Ok(reader.bytes.len())
}

/// Adds the replies to messages after which other bytes come without end, each with a line that
/// tells whether it was read no more often than a head and a body can have bytes, and once more.
fn before_others<S: Backend>(
    alloc: Global,
    out: &mut String,
    sent: &[Sent],
    desk: &mut Desk<S>,
) -> Result<(), Failure> {
    for message in sent {
        let mut reader = Slow::endless(message.1.as_slice());
        let mut writer = Faltering::never(alloc);
        let ended = calls::serve(alloc, &mut reader, &mut writer, message.0, desk);
        put_reply(alloc, out, writer.taken.as_slice(), ended)?;
        let most = if reader.reads <= MOST_READS {
            "at most"
        } else {
            "more than"
        };
        writeln!(out, "{most} {MOST_READS} reads")?;
    }
    Ok(())
}

/// Adds the bytes of a reply, with a backslash and `r` for each carriage return, and the fault of
/// serving it.
pub(crate) fn put_reply(
    alloc: Global,
    out: &mut String,
    bytes: &[u8],
    ended: Result<(), ServeFault>,
) -> Result<(), Failure> {
    out.push_str(replaced(alloc, str_of(bytes), "\r", "\\r")?.as_str())?;
    if let Err(fault) = ended {
        writeln!(out, "| {} {}", fault.number(), fault.name())?;
    }
    Ok(())
}
