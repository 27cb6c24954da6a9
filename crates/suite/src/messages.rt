//! Cases of messages: bytes that come in at their moments, and the bytes of their replies.

use crate::asks::asks_of;
use crate::calls::execute;
use crate::chain;
use crate::desks::{Before, attached};
use crate::failure::Failure;
use crate::served::{LEFT, Manner, Sent, serve};
use crate::tables::Opening;
use case_text::{Case, Named, expanded, number};
use service_core::Desk;
use std::alloc::Global;
use store_core::Backend;

/// What begins a message, before its moment.
const BEGIN: &str = "> ";

/// What begins a message after another one.
const NEXT: &str = "\n> ";

/// Serves the messages of a case in each of three manners, each over a desk of its own: one after
/// the other, the same a byte at a time, and all in a list. The replies are written as the first
/// has them, then how many bytes of each message were left unread, and whether the other two are
/// the same. Where lines name other manners, the replies of each are written in place of that.
pub(crate) fn run_case<O: Opening>(
    alloc: Global,
    out: &mut String,
    opening: &O,
    case: &Case<'_>,
) -> Result<(), Failure> {
    let before = Before::of(case, "desk")?;
    let mut sent = Vec::new(alloc);
    for message in messages_in(alloc, case.text("messages"))?.as_slice() {
        let (_, message) = sent_of(alloc, case.named, message)?;
        sent.push(message)?;
    }
    match case.text("manners") {
        "" => serve_alike(alloc, out, opening, before, sent.as_slice()),
        manners => serve_by_each(alloc, out, opening, before, sent.as_slice(), manners),
    }
}

/// The messages of a part, each with its moment before it.
pub(crate) fn messages_in(alloc: Global, part: &str) -> Result<Vec<&str>, Failure> {
    let mut messages = Vec::new(alloc);
    let part = part.strip_prefix(BEGIN).ok_or(Failure::BadLine)?;
    for message in part.strip_suffix("\n").unwrap_or(part).split(NEXT) {
        messages.push(message)?;
    }
    Ok(messages)
}

/// What stands after the moment of a message, and the message at it.
pub(crate) fn sent_of<'m>(
    alloc: Global,
    named: &[Named],
    message: &'m str,
) -> Result<(&'m str, Sent), Failure> {
    let (line, text) = message.split_once('\n').ok_or(Failure::BadLine)?;
    let (moment, title) = line.split_once(' ').unwrap_or((line, ""));
    let text = expanded(alloc, named, text)?;
    let bytes = with_returns(alloc, text.as_slice())?;
    Ok((title, (number(moment)?, bytes)))
}

/// The text with a carriage return for each backslash and `r`.
fn with_returns(alloc: Global, text: &[u8]) -> Result<Vec<u8>, Failure> {
    let mut bytes = Vec::new(alloc);
    for byte in text {
        if *byte == b'r' && bytes.last() == Some(&b'\\') {
            let _ = bytes.pop();
            bytes.push(b'\r')?;
        } else {
            bytes.push(*byte)?;
        }
    }
    Ok(bytes)
}

fn serve_by_each<O: Opening>(
    alloc: Global,
    out: &mut String,
    opening: &O,
    before: Before<'_>,
    sent: &[Sent],
    manners: &str,
) -> Result<(), Failure> {
    for line in manners.lines() {
        serve_by(alloc, out, opening, before, sent, line)?;
    }
    Ok(())
}

fn serve_by<O: Opening>(
    alloc: Global,
    out: &mut String,
    opening: &O,
    before: Before<'_>,
    sent: &[Sent],
    manner: &str,
) -> Result<(), Failure> {
    writeln!(out, "{manner}")?;
    if manner == "chained" {
        chain::run(alloc, out, opening, before, sent)
    } else {
        let told = replies(alloc, opening, before, sent, manner_of(manner)?)?;
        out.push_str(told.as_str())?;
        Ok(())
    }
}

fn serve_alike<O: Opening>(
    alloc: Global,
    out: &mut String,
    opening: &O,
    before: Before<'_>,
    sent: &[Sent],
) -> Result<(), Failure> {
    let whole = replies(alloc, opening, before, sent, Manner::Whole)?;
    let bytes = replies(alloc, opening, before, sent, Manner::Bytes)?;
    let list = replies(alloc, opening, before, sent, Manner::List)?;
    out.push_str(whole.as_str())?;
    let alike = whole.as_str() == bytes.as_str();
    writeln!(out, "a byte at a time: {}", same_or_not(alike))?;
    let rest = whole.as_str().strip_prefix(list.as_str());
    let alike = rest.unwrap_or("").starts_with(LEFT);
    writeln!(out, "in a list: {}", same_or_not(alike))?;
    Ok(())
}

fn same_or_not(alike: bool) -> &'static str {
    if alike { "same" } else { "differs" }
}

/// The replies to messages over a desk of their own.
fn replies<O: Opening>(
    alloc: Global,
    opening: &O,
    before: Before<'_>,
    sent: &[Sent],
    manner: Manner,
) -> Result<String, Failure> {
    let mut desk = attached(alloc, opening, before.tables, before.settings)?;
    let replies = served_after(alloc, before.commands, sent, manner, &mut desk);
    drop(desk);
    replies
}

fn served_after<S: Backend>(
    alloc: Global,
    commands: &str,
    sent: &[Sent],
    manner: Manner,
    desk: &mut Desk<S>,
) -> Result<String, Failure> {
    do_first(alloc, commands, desk)?;
    let mut replies = String::new(alloc);
    serve(alloc, &mut replies, sent, manner, desk)?;
    Ok(replies)
}

/// Asks the commands of a desk one by one, whatever comes of them.
pub(crate) fn do_first<S: Backend>(
    alloc: Global,
    commands: &str,
    desk: &mut Desk<S>,
) -> Result<(), Failure> {
    for ask in asks_of(alloc, commands)?.as_slice() {
        drop(execute(alloc, desk, ask));
    }
    Ok(())
}

/// The manner that a line states:
///
/// | Line | The messages are served |
/// |---|---|
/// | `made N` | N turns of messages made of them: how many had which code; then the first |
/// | `many N` | N times over, in one list: how many had which code |
/// | `asked` | each read by one call, and told by another what it asks for |
///
/// `chained` has them served after the calls of a desk in a program (`chain.rt`).
fn manner_of(line: &str) -> Result<Manner, Failure> {
    let (kind, rest) = line.split_once(' ').unwrap_or((line, "0"));
    let count = number(rest)?;
    match kind {
        "made" => Ok(Manner::Made(count)),
        "many" => Ok(Manner::Many(count)),
        "asked" => Ok(Manner::Asked),
        _ => Err(Failure::BadLine),
    }
}
