//! Messages whose first one meets a failure at each of its calls in turn.

use crate::desks::Before;
use crate::failure::Failure;
use crate::messages::replies;
use crate::served::{LEFT, Manner, Sent};
use crate::tables::Opening;
use sqlite::Connection;
use store_core::Backend;

/// More calls than a message takes.
const MOST: u32 = 1_000;

/// What is written of a message whose reader failed.
const READ: &str = "| 1 Read\n";

/// What is written after the part of a reply whose writer failed.
const WRITE: &str = "| 2 Write\n";

/// Lets the reader of the first message fail after each number of reads, from none up to the first
/// that is more than it takes. Nothing is to be written of that message, and the others are to be
/// answered as on a desk that it never came to. Tells how many reads it takes, and where it is
/// wrong.
pub(crate) fn reads<S: Backend + Drop, O: Opening<Connection<S>>>(
    rt: &HostRuntime,
    out: &mut String,
    opening: &O,
    before: Before<'_>,
    sent: &[Sent],
) -> Result<(), Failure> {
    let whole = answered(rt, opening, before, sent, Manner::BYTES)?;
    let others = answered(
        rt,
        opening,
        before,
        sent.get(1..).unwrap_or(&[]),
        Manner::BYTES,
    )?;
    for count in 0..MOST {
        let manner = Manner::streams(Some(count), u32::MAX, true);
        let text = answered(rt, opening, before, sent, manner)?;
        if text.as_str() == whole.as_str() {
            writeln!(out, "read whole by {count} calls")?;
            return Ok(());
        }
        if text.as_str().strip_prefix(READ) != Some(others.as_str()) {
            writeln!(out, "wrong after {count} calls")?;
        }
    }
    Err(Failure::Endless)
}

/// Lets the writer of the first message's reply fail after each number of writes, a byte each.
/// Those bytes are to be written and no more, and the others are to be answered as on a desk that
/// the first message came to. Tells how many writes the reply takes, and where it is wrong.
pub(crate) fn writes<S: Backend + Drop, O: Opening<Connection<S>>>(
    rt: &HostRuntime,
    out: &mut String,
    opening: &O,
    before: Before<'_>,
    sent: &[Sent],
) -> Result<(), Failure> {
    let whole = answered(rt, opening, before, sent, Manner::BYTES)?;
    let first = answered(
        rt,
        opening,
        before,
        sent.get(..1).unwrap_or(&[]),
        Manner::BYTES,
    )?;
    for count in 0..MOST {
        let text = answered(
            rt,
            opening,
            before,
            sent,
            Manner::streams(None, count, true),
        )?;
        if text.as_str() == whole.as_str() {
            writeln!(out, "written whole by {count} calls")?;
            return Ok(());
        }
        if !is_cut(text.as_str(), first.as_str(), whole.as_str(), count) {
            writeln!(out, "wrong after {count} calls")?;
        }
    }
    Err(Failure::Endless)
}

/// Whether the text is that many bytes of the first reply, the fault, and the replies that the
/// whole has after the first. A carriage return stands as a backslash and `r` there.
fn is_cut(text: &str, first: &str, whole: &str, count: u32) -> bool {
    match text.split_once(WRITE) {
        Some((part, rest)) => {
            let returns = part.split('\\').count().saturating_sub(1);
            let bytes = part.len().saturating_sub(returns);
            let is_part = bytes == count as usize && first.starts_with(part);
            is_part && whole.strip_prefix(first) == Some(rest)
        }
        None => false,
    }
}

/// The replies to the messages, without what is left of each.
fn answered<S: Backend + Drop, O: Opening<Connection<S>>>(
    rt: &HostRuntime,
    opening: &O,
    before: Before<'_>,
    sent: &[Sent],
    manner: Manner,
) -> Result<String, Failure> {
    let text = replies(rt, opening, before, sent, manner)?;
    let (text, _) = text
        .as_str()
        .split_once(LEFT)
        .unwrap_or((text.as_str(), ""));
    Ok(String::from_str(rt.alloc(), text)?)
}
