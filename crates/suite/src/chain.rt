//! Commands, a list that is written row by row and messages, one after the other on one desk.
//!
//! What owns much is given back by `drop`, whose proof stands once; at the end of its scope it
//! would be taken apart for each function's own proof.
ghost use Rattle.std.specs.Prelude.{◌≡◌, true};
ghost use Rattle.service_core.specs.Leaves.{LeavesDesk};
ghost use Rattle.service_core.specs.Streaming.{is_list};

use crate::asks::{Ask, asks_of};
use crate::calls::{Outcome, Reply};
use crate::desks::{Before, attached, put_outcomes};
use crate::failure::Failure;
use crate::served::{Sent, put_replies};
use crate::tables::Opening;
use case_text::str_of;
use desk_core::Command;
use service_core::{Desk, StreamFault, outcome_text};
use std::alloc::{AllocError, Global};
use std::io::Write;
use store_core::Backend;
use wire_core::serve_list;

/// What comes of the calls of a desk, one after the other.
#[derive(Drop)]
struct Chain {
    outcomes: Result<Vec<Outcome>, AllocError>,
    outcome: Outcome,
    listed: Result<(), StreamFault>,
    replies: Result<Vec<Reply>, AllocError>,
}

/// Asks the commands at once, the last of them once more, has its list written row by row, and
/// serves the messages in a list, all on one desk. Adds what comes of each.
pub(crate) fn run<O: Opening>(
    alloc: Global,
    out: &mut String,
    opening: &O,
    before: Before<'_>,
    sent: &[Sent],
) -> Result<(), Failure> {
    let asks = asks_of(alloc, before.commands)?;
    let mut desk = attached(alloc, opening, before.tables, before.settings)?;
    let told = tell(alloc, out, asks.as_slice(), sent, &mut desk);
    drop(desk);
    told
}

fn tell<S: Backend>(
    alloc: Global,
    out: &mut String,
    asks: &[Ask],
    sent: &[Sent],
    desk: &mut Desk<S>,
) -> Result<(), Failure> {
    let last = asks.last().ok_or(Failure::BadLine)?;
    let mut list = Vec::new(alloc);
    match &last.2 {
        Command::List { .. } | Command::Overdue => {
            let caller = last.1.as_str();
            let chain = follow(alloc, desk, asks, last.0, caller, &last.2, &mut list, sent);
            let told = put_chain(alloc, out, &chain, str_of(list.as_slice()));
            drop(chain);
            told
        }
        _ => Err(Failure::BadLine),
    }
}

/// Makes the calls, the last commands by this caller at this moment. From first to last the settings
/// stay, the connection lasts, and a disk that is clean after the last call was clean before the
/// first.
fn follow<S: Backend, W: Write>(
    alloc: Global,
    desk: &mut Desk<S>,
    asks: &[Ask],
    at: u32,
    caller: &str,
    command: &Command,
    writer: &mut W,
    sent: &[Sent],
) -> Chain
    requires { is_list command.now ≡ true }
    ensures left { LeavesDesk S.Store desk.old desk.new }
{
    let outcomes = desk.execute_all(alloc, asks);
    let outcome = desk.execute(alloc, at, caller, command);
    let listed = desk.stream(alloc, at, caller, command, writer);
    let replies = serve_list(alloc, sent, desk);
    Chain {
        outcomes,
        outcome,
        listed,
        replies,
    }
}

fn put_chain(alloc: Global, out: &mut String, chain: &Chain, list: &str) -> Result<(), Failure> {
    let (Ok(outcomes), Ok(replies)) = (&chain.outcomes, &chain.replies) else {
        return Err(Failure::Memory(AllocError));
    };
    put_outcomes(alloc, out, outcomes.as_slice())?;
    out.push_str(outcome_text(alloc, &chain.outcome)?.as_str())?;
    let whole = chain.listed.is_ok();
    writeln!(out, "{list}written whole: {whole}")?;
    put_replies(alloc, out, replies.as_slice())
}
