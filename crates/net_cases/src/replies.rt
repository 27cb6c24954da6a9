//! Cases of a reply that comes to a client.

use crate::failure::Failure;
use client_core::answer_in;
use http_rules::undated_reply;
use std::alloc::Global;

/// Adds what a reply tells without its date: its code, and how many bytes its text has.
pub(crate) fn run_case(alloc: Global, out: &mut String, reply: &[u8]) -> Result<(), Failure> {
    let reply = undated_reply(alloc, reply)?;
    match answer_in(alloc, reply.as_slice())? {
        Some(told) => writeln!(out, "{}: {} bytes", told.code, told.text.len())?,
        None => writeln!(out, "none")?,
    }
    Ok(())
}
