//! What messages ask for, by a call that reads each and a call that tells what it asks.
//!
//! What owns much is given back by `drop`, whose proof stands once; at the end of its scope it
//! would be taken apart for each function's own proof.

use crate::asks::Ask;
use crate::desks::outcome;
use crate::failure::Failure;
use crate::served::Sent;
use service_core::Desk;
use std::alloc::Global;
use store_core::Backend;
use wire_core::{Message, command_of, read_message};

/// Adds what each message asks for: a line with the fault of reading it or of what it asks, or one
/// with its caller and the text of what comes of its command on the desk; and how many of its bytes
/// were left unread.
pub(crate) fn answer_asked<S: Backend>(
    alloc: Global,
    out: &mut String,
    sent: &[Sent],
    desk: &mut Desk<S>,
) -> Result<(), Failure> {
    for (at, bytes) in sent {
        let mut reader = bytes.as_slice();
        match read_message(alloc, &mut reader) {
            Ok(message) => {
                let put = put_command(alloc, out, *at, &message, desk);
                drop(message);
                put?;
            }
            Err(fault) => writeln!(out, "bad message {} {}", fault.number(), fault.name())?,
        }
        writeln!(out, "left: {}", reader.len())?;
    }
    Ok(())
}

/// Adds the caller of a message and what comes of its command.
fn put_command<S: Backend>(
    alloc: Global,
    out: &mut String,
    at: u32,
    message: &Message,
    desk: &mut Desk<S>,
) -> Result<(), Failure> {
    match command_of(alloc, desk.settings(), message) {
        Ok((caller, command)) => {
            let ask = (at, caller.into_string(), command);
            let put = put_outcome(alloc, out, &ask, desk);
            drop(ask);
            put
        }
        Err(fault) => {
            writeln!(out, "bad request {} {}", fault.number(), fault.name())?;
            Ok(())
        }
    }
}

/// Adds the caller and the text of what comes of the command.
fn put_outcome<S: Backend>(
    alloc: Global,
    out: &mut String,
    ask: &Ask,
    desk: &mut Desk<S>,
) -> Result<(), Failure> {
    let told = outcome(alloc, desk, ask)?;
    write!(out, "{}: {}", ask.1.as_str(), told.as_str())?;
    Ok(())
}
