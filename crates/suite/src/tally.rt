//! Cases of lists that are made by lot: what comes of their commands.
//!
//! What owns much is given back by `drop`, whose proof stands once; at the end of its scope it
//! would be taken apart for each function's own proof.

use crate::calls::{Outcome, Reply, execute_all, serve_all};
use crate::desks::attached;
use crate::failure::Failure;
use crate::lots::{Drawn, Urn, draw, urn_of};
use crate::tables::Opening;
use case_text::{Case, Words};
use service_core::outcome_text;
use std::alloc::{AllocError, Global};
use wire_core::ServeFault;

/// What came of all commands.
#[derive(Drop)]
struct Tally {
    /// Of each line, how many of its commands were accepted.
    accepted: Vec<u32>,
    /// How often each refusal came, under its number.
    refused: [u32; 17],
    /// How many replies had another text than the outcome of the command.
    differ: u32,
    /// How many replies, and how many texts of outcomes, were out of memory.
    lacking: u32,
}

/// Makes so many lists of so many commands, as a line `LISTS COMMANDS` states. Each is asked of a
/// new desk at once, and of another new desk by messages. It is written how often each line was
/// accepted, how often each refusal came, how many replies had another text, and how many texts and
/// replies found no memory.
pub(crate) fn run_case<O: Opening>(
    alloc: Global,
    out: &mut String,
    opening: &O,
    case: &Case<'_>,
) -> Result<(), Failure> {
    let mut lists = Words::of(case.text("lists").trim_end());
    let urn = urn_of(alloc, case.text("lots"))?;
    let (lists, count) = (lists.count()?, lists.count()?);
    let tally = counted(alloc, opening, case.text("settings"), &urn, lists, count)?;
    Ok(tell(out, &urn, &tally)?)
}

fn counted<O: Opening>(
    alloc: Global,
    opening: &O,
    settings: &str,
    urn: &Urn<'_>,
    lists: u32,
    count: u32,
) -> Result<Tally, Failure> {
    let mut tally = Tally {
        accepted: vec![in alloc; 0u32; urn.lines.len()]?,
        refused: [0u32; 17],
        differ: 0,
        lacking: 0,
    };
    let mut number = 1u32;
    for _ in 0..lists {
        let (list, after) = draw(alloc, urn, count, number)?;
        number = after;
        count_list(alloc, opening, settings, &list, &mut tally)?;
    }
    Ok(tally)
}

fn count_list<O: Opening>(
    alloc: Global,
    opening: &O,
    settings: &str,
    list: &Drawn,
    tally: &mut Tally,
) -> Result<(), Failure> {
    let outcomes = outcomes_of(alloc, opening, settings, list)?;
    let replies = replies_to(alloc, opening, settings, list)?;
    for (i, outcome) in outcomes.iter().enumerate() {
        match outcome {
            Ok(_) => {
                let place = list.places.get(i).copied().unwrap_or(usize::MAX);
                raise(tally.accepted.as_mut_slice(), place);
            }
            Err(refusal) => raise(&mut tally.refused, usize::from(refusal.number())),
        }
        count_reply(alloc, tally, outcome, replies.get(i));
    }
    Ok(())
}

/// What comes of the commands, all asked of a new desk at once.
fn outcomes_of<O: Opening>(
    alloc: Global,
    opening: &O,
    settings: &str,
    list: &Drawn,
) -> Result<Vec<Outcome>, Failure> {
    let mut desk = attached(alloc, opening, "", settings)?;
    let outcomes = execute_all(alloc, &mut desk, list.asks.as_slice());
    drop(desk);
    Ok(outcomes?)
}

/// The replies to the messages, all sent to a new desk.
fn replies_to<O: Opening>(
    alloc: Global,
    opening: &O,
    settings: &str,
    list: &Drawn,
) -> Result<Vec<Reply>, Failure> {
    let mut desk = attached(alloc, opening, "", settings)?;
    let replies = serve_all(alloc, list.sent.as_slice(), &mut desk);
    drop(desk);
    Ok(replies?)
}

fn count_reply(alloc: Global, tally: &mut Tally, outcome: &Outcome, reply: Option<&Reply>) {
    match is_reply(alloc, outcome, reply) {
        Ok(true) => (),
        Ok(false) => tally.differ = tally.differ.saturating_add(1),
        Err(_) => tally.lacking = tally.lacking.saturating_add(1),
    }
    let lacks = match reply {
        Some(Ok(bytes)) => bytes.as_slice().starts_with(b"HTTP/1.1 503"),
        Some(Err(ServeFault::NoMemory)) => true,
        _ => false,
    };
    if lacks {
        tally.lacking = tally.lacking.saturating_add(1);
    }
}

/// Adds one to the count at a place.
fn raise(counts: &mut [u32], place: usize) {
    if place < counts.len() {
        counts[place] = counts[place].saturating_add(1);
    }
}

/// Whether the reply has the text of the outcome as its body.
fn is_reply(alloc: Global, outcome: &Outcome, reply: Option<&Reply>) -> Result<bool, AllocError> {
    let text = outcome_text(alloc, outcome)?;
    let text = format!(in alloc; "\r\n\r\n{}", text.as_str())?;
    Ok(match reply {
        Some(Ok(bytes)) => bytes.as_slice().ends_with(text.as_bytes()),
        _ => false,
    })
}

fn tell(out: &mut String, urn: &Urn<'_>, tally: &Tally) -> Result<(), AllocError> {
    for (line, count) in urn.lines.iter().zip(tally.accepted.iter()) {
        let (words, _) = line.split_once('|').unwrap_or((*line, ""));
        writeln!(out, "accepted {}: {words}", *count)?;
    }
    for (number, count) in tally.refused.iter().enumerate().skip(1) {
        writeln!(out, "refused {number}: {}", *count)?;
    }
    writeln!(out, "replies with another text: {}", tally.differ)?;
    writeln!(out, "texts and replies without memory: {}", tally.lacking)
}
