//! Messages that are served on a desk, in one of several manners.

use crate::asking::answer_asked;
use crate::calls::{self, Reply, serve_all};
use crate::failure::Failure;
use crate::made::{answer_made, answer_many};
use crate::streams::{Part, Slow};
use case_text::{replaced, str_of};
use service_core::Desk;
use std::alloc::Global;
use store_core::Backend;
use wire_core::ServeFault;

/// A message at its moment.
pub(crate) type Sent = (u32, Vec<u8>);

/// What stands after all replies, where they are followed by what is left of each message.
pub(crate) const LEFT: &str = "left:";

/// How messages are served.
#[derive(Clone, Copy)]
pub(crate) enum Manner {
    /// One after the other, over memory.
    Whole,
    /// The same, over streams that give and take a byte at a time.
    Bytes,
    /// All at once.
    List,
    /// So many turns of messages made of them.
    Made(u32),
    /// So many times over, in one list.
    Many(u32),
    /// One after the other, each read by one call and told by another what it asks for.
    Asked,
}

/// Adds the replies to messages: each with the fault of serving it, if there is one; then, where
/// they are served one after the other, how many bytes of each were left unread.
pub(crate) fn serve<S: Backend>(
    alloc: Global,
    out: &mut String,
    sent: &[Sent],
    manner: Manner,
    desk: &mut Desk<S>,
) -> Result<(), Failure> {
    match manner {
        Manner::Whole => one_by_one(alloc, out, sent, false, desk),
        Manner::Bytes => one_by_one(alloc, out, sent, true, desk),
        Manner::List => in_list(alloc, out, sent, desk),
        Manner::Made(turns) => answer_made(alloc, out, sent, turns, desk),
        Manner::Many(times) => answer_many(alloc, out, sent, times, desk),
        Manner::Asked => answer_asked(alloc, out, sent, desk),
    }
}

fn in_list<S: Backend>(
    alloc: Global,
    out: &mut String,
    sent: &[Sent],
    desk: &mut Desk<S>,
) -> Result<(), Failure> {
    let replies = serve_all(alloc, sent, desk)?;
    put_replies(alloc, out, replies.as_slice())
}

/// Adds the replies that came in a list.
pub(crate) fn put_replies(
    alloc: Global,
    out: &mut String,
    replies: &[Reply],
) -> Result<(), Failure> {
    for reply in replies {
        match reply {
            Ok(bytes) => put_reply(alloc, out, bytes.as_slice(), Ok(()))?,
            Err(fault) => put_reply(alloc, out, b"", Err(*fault))?,
        }
    }
    Ok(())
}

fn one_by_one<S: Backend>(
    alloc: Global,
    out: &mut String,
    sent: &[Sent],
    by_bytes: bool,
    desk: &mut Desk<S>,
) -> Result<(), Failure> {
    let mut left = String::new(alloc);
    for message in sent {
        let rest = if by_bytes {
            by_streams(alloc, out, message, desk)?
        } else {
            by_memory(alloc, out, message, desk)?
        };
        write!(left, " {rest}")?;
    }
    writeln!(out, "{LEFT}{}", left.as_str())?;
    Ok(())
}

/// Serves a message over memory, and adds its reply: how many bytes are left unread.
fn by_memory<S: Backend>(
    alloc: Global,
    out: &mut String,
    message: &Sent,
    desk: &mut Desk<S>,
) -> Result<usize, Failure> {
    let mut reader = message.1.as_slice();
    let mut written = Vec::new(alloc);
    let ended = calls::serve(alloc, &mut reader, &mut written, message.0, desk);
    put_reply(alloc, out, written.as_slice(), ended)?;
    Ok(reader.len())
}

/// The same over streams that give and take a byte at a time.
fn by_streams<S: Backend>(
    alloc: Global,
    out: &mut String,
    message: &Sent,
    desk: &mut Desk<S>,
) -> Result<usize, Failure> {
    let mut reader = Slow(message.1.as_slice());
    let mut writer = Part(Vec::new(alloc));
    let ended = calls::serve(alloc, &mut reader, &mut writer, message.0, desk);
    put_reply(alloc, out, writer.0.as_slice(), ended)?;
    Ok(reader.0.len())
}

/// Adds the bytes of a reply, with a backslash and `r` for each carriage return, and the fault of
/// serving it.
pub(crate) fn put_reply(
    alloc: Global,
    out: &mut String,
    bytes: &[u8],
    ended: Result<(), ServeFault>,
) -> Result<(), Failure> {
    out.push_str(replaced(alloc, str_of(bytes), "\r", "\\r")?.as_str())?;
    if let Err(fault) = ended {
        writeln!(out, "| {} {}", fault.number(), fault.name())?;
    }
    Ok(())
}
