//! Cases of messages that come over streams, connections and listeners which fail.

use crate::connections::server_of;
use crate::desks::{Before, attached, do_first};
use crate::each;
use crate::failure::Failure;
use crate::served::{Manner, Sent, serve};
use crate::tables::Opening;
use case_text::{Case, Named, expanded, number};
use service_core::Desk;
use sqlite::Connection;
use std::alloc::Global;
use store_core::Backend;

/// What begins a message, before its moment.
const BEGIN: &str = "> ";

/// What begins a message after another one.
const NEXT: &str = "\n> ";

/// Serves the messages of a case in the manner of each line, over a desk of its own: adds the
/// replies, and then how many bytes of each message were left unread.
pub(crate) fn run_case<S: Backend + Drop, O: Opening<Connection<S>>>(
    rt: &HostRuntime,
    out: &mut String,
    opening: &O,
    case: &Case<'_>,
) -> Result<(), Failure> {
    let before = Before::of(case, "desk")?;
    let sent = sent_in(rt.alloc(), case.named, case.text("messages"))?;
    for line in case.text("manners").lines() {
        writeln!(out, "{line}")?;
        match line {
            "each_read_fails" => each::reads(rt, out, opening, before, sent.as_slice())?,
            "each_write_fails" => each::writes(rt, out, opening, before, sent.as_slice())?,
            _ => {
                let told = replies(rt, opening, before, sent.as_slice(), manner_of(line)?)?;
                out.push_str(told.as_str())?;
            }
        }
    }
    Ok(())
}

/// The messages of a case.
pub fn sent_in(alloc: Global, named: &[Named], messages: &str) -> Result<Vec<Sent>, Failure> {
    let mut sent = Vec::new(alloc);
    let messages = messages.strip_prefix(BEGIN).ok_or(Failure::BadLine)?;
    for message in messages.strip_suffix("\n").unwrap_or(messages).split(NEXT) {
        let (moment, text) = message.split_once('\n').ok_or(Failure::BadLine)?;
        let moment = number(moment)?;
        let text = expanded(alloc, named, text)?;
        sent.push((moment, with_returns(alloc, text.as_slice())?))?;
    }
    Ok(sent)
}

/// The text with a carriage return for each backslash and `r`.
fn with_returns(alloc: Global, text: &[u8]) -> Result<Vec<u8>, Failure> {
    let mut bytes = Vec::new(alloc);
    for byte in text {
        if *byte == b'r' && bytes.last() == Some(&b'\\') {
            let _ = bytes.pop();
            bytes.push(b'\r')?;
        } else {
            bytes.push(*byte)?;
        }
    }
    Ok(bytes)
}

/// The replies to messages over a desk of their own.
pub(crate) fn replies<S: Backend + Drop, O: Opening<Connection<S>>>(
    rt: &HostRuntime,
    opening: &O,
    before: Before<'_>,
    sent: &[Sent],
    manner: Manner,
) -> Result<String, Failure> {
    let mut desk = attached(rt.alloc(), opening, before.tables, before.settings)?;
    let replies = served_after(rt, before.commands, sent, manner, &mut desk);
    drop(desk);
    replies
}

/// The replies to messages on a desk, once the commands are done on it.
fn served_after<S: Backend>(
    rt: &HostRuntime,
    commands: &str,
    sent: &[Sent],
    manner: Manner,
    desk: &mut Desk<S>,
) -> Result<String, Failure> {
    do_first(rt.alloc(), commands, desk)?;
    let mut replies = String::new(rt.alloc());
    serve(rt, &mut replies, sent, manner, desk)?;
    Ok(replies)
}

/// The manner that a line states:
///
/// | Line | The messages are served |
/// |---|---|
/// | `reader_fails N` | a byte at a time; of the first the reader fails after N reads |
/// | `writer_fails N` | the same; of the first the writer fails after N writes |
/// | `writer_stops N` | the same, and takes nothing then |
/// | `loopback` | each over a connection of its own, by a server that ends after it |
/// | `leaves N` | over two connections: of the first message N bytes come, and the second whole |
/// | `endless` | each followed by bytes that never end, and told how often they were read |
///
/// Words that name a server let them be served each over a connection in memory (`server_of`).
/// `each_read_fails` and `each_write_fails` let the first fail after each number of calls in turn
/// (`each.rt`).
fn manner_of(line: &str) -> Result<Manner, Failure> {
    let (kind, rest) = line.split_once(' ').unwrap_or((line, "0"));
    if let Some(server) = server_of(kind, rest)? {
        return Ok(Manner::Connections(server));
    }
    let count = number(rest)?;
    match kind {
        "reader_fails" => Ok(Manner::streams(Some(count), u32::MAX, true)),
        "writer_fails" => Ok(Manner::streams(None, count, true)),
        "writer_stops" => Ok(Manner::streams(None, count, false)),
        _ => other_manner(kind, count),
    }
}

/// One in which no stream fails.
fn other_manner(kind: &str, count: u32) -> Result<Manner, Failure> {
    match kind {
        "loopback" => Ok(Manner::Loopback),
        "leaves" => Ok(Manner::Leaves(count)),
        "endless" => Ok(Manner::Endless),
        _ => Err(Failure::BadLine),
    }
}
