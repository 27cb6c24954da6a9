//! Messages made of others: cut short, grown by a byte, with a byte changed, with a line repeated;
//! and the same messages many times over.

use crate::calls::{serve, serve_all};
use crate::failure::Failure;
use crate::served::{Sent, put_reply};
use service_core::Desk;
use std::alloc::{AllocError, Global};
use store_core::Backend;

/// What a reply begins with, before its code.
const BEGIN: &[u8] = b"HTTP/1.1 ";

/// The codes of replies.
const CODES: [&str; 8] = ["200", "201", "400", "403", "404", "405", "409", "503"];

/// Makes a message of each of the given ones in each turn and serves it, and tells how many replies
/// had which code; then serves the first message as it is, and tells its reply.
pub(crate) fn answer_made<S: Backend>(
    alloc: Global,
    out: &mut String,
    sent: &[Sent],
    turns: u32,
    desk: &mut Desk<S>,
) -> Result<(), Failure> {
    let mut counts = [0u32; 8];
    let mut number = 1u32;
    for turn in 0..turns {
        number = serve_turn(alloc, sent, turn, number, desk, &mut counts)?;
    }
    tell(out, &counts)?;
    if let Some(first) = sent.first() {
        let reply = reply_to(alloc, first.0, first.1.as_slice(), desk);
        put_reply(alloc, out, reply.as_slice(), Ok(()))?;
    }
    Ok(())
}

/// Serves the messages so many times over, all in one list, and tells how many replies had which
/// code.
pub(crate) fn answer_many<S: Backend>(
    alloc: Global,
    out: &mut String,
    sent: &[Sent],
    times: u32,
    desk: &mut Desk<S>,
) -> Result<(), Failure> {
    let list = many(alloc, sent, times)?;
    let mut counts = [0u32; 8];
    for reply in serve_all(alloc, list.as_slice(), desk)? {
        match reply {
            Ok(bytes) => count_code(&mut counts, bytes.as_slice()),
            Err(_) => return Err(Failure::Memory(AllocError)),
        }
    }
    tell(out, &counts)
}

fn many(alloc: Global, sent: &[Sent], times: u32) -> Result<Vec<Sent>, AllocError> {
    let mut list = Vec::new(alloc);
    for number in 0..(times as usize).saturating_mul(sent.len()) {
        if let Some(message) = sent.get(number.checked_rem(sent.len()).unwrap_or(0)) {
            list.push((message.0, message.1.clone()?))?;
        }
    }
    Ok(list)
}

/// One turn, from the generator's number on: its next number.
fn serve_turn<S: Backend>(
    alloc: Global,
    sent: &[Sent],
    turn: u32,
    number: u32,
    desk: &mut Desk<S>,
    counts: &mut [u32; 8],
) -> Result<u32, AllocError> {
    let mut number = number;
    for message in sent {
        number = next(number);
        let bytes = made_of(alloc, message.1.as_slice(), turn, number)?;
        let reply = reply_to(alloc, message.0, bytes.as_slice(), desk);
        count_code(counts, reply.as_slice());
    }
    Ok(number)
}

/// The generator's next number.
pub(crate) fn next(number: u32) -> u32 {
    ((u64::from(number) * 1_664_525 + 1_013_904_223) % 4_294_967_296) as u32
}

/// What is made of the bytes in a turn, by the generator's number: so many of them, a byte more, a
/// byte changed, or a line many times more.
fn made_of(alloc: Global, bytes: &[u8], turn: u32, number: u32) -> Result<Vec<u8>, AllocError> {
    let byte = [(number / 16_777_216) as u8];
    let place = (number / 256) as usize % (bytes.len() + 1);
    let (before, after) = bytes.split_at(place);
    match turn % 4 {
        0 => Vec::from_slice(alloc, &bytes[..(turn / 4) as usize % (bytes.len() + 1)]),
        1 => [before, &byte, after].concat(alloc),
        2 => [before, &byte, after.get(1..).unwrap_or(&[])].concat(alloc),
        _ => repeated(alloc, bytes, place % 6, byte[0] % 40),
    }
}

/// The bytes with the line at a place so many times more.
fn repeated(alloc: Global, bytes: &[u8], place: usize, times: u8) -> Result<Vec<u8>, AllocError> {
    let mut text = Vec::new(alloc);
    for (i, line) in str::from_utf8(bytes)
        .unwrap_or("")
        .split_inclusive('\n')
        .enumerate()
    {
        text.extend_from_slice(line.as_bytes())?;
        if i == place {
            let more = line.as_bytes().repeat(alloc, usize::from(times))?;
            text.extend_from_slice(more.as_slice())?;
        }
    }
    Ok(text)
}

/// The bytes that are written for a message.
fn reply_to<S: Backend>(alloc: Global, moment: u32, bytes: &[u8], desk: &mut Desk<S>) -> Vec<u8> {
    let mut reader = bytes;
    let mut written = Vec::new(alloc);
    let _ = serve(alloc, &mut reader, &mut written, moment, desk);
    written
}

fn count_code(counts: &mut [u32; 8], reply: &[u8]) {
    let rest = reply.strip_prefix(BEGIN).unwrap_or(&[]);
    for (i, code) in CODES.iter().enumerate() {
        if rest.starts_with(code.as_bytes()) {
            counts[i] = counts[i].saturating_add(1);
        }
    }
}

/// Adds a line for each code and its count.
fn tell(out: &mut String, counts: &[u32; 8]) -> Result<(), Failure> {
    for (i, code) in CODES.iter().enumerate() {
        writeln!(out, "{code}: {}", counts[i])?;
    }
    Ok(())
}
