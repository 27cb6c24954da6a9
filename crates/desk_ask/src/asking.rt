//! A message is sent to a server, and its reply read.

use crate::Ended;
use crate::options::Server;
use crate::proxied::{Seen, seen_in};
use client_core::{Answered, answer_in};
use http_rules::undated_reply;
use std::io::{self, Read, Write};
use std::net::TcpStream;
use std::time::Duration;

/// The most bytes of a reply's head.
const MOST_HEAD: usize = 1_048_576;

/// The most bytes of a reply: its head, and 64 MiB of text.
const MOST: usize = 68_157_440;

/// How many bytes are asked for at once.
const CHUNK: usize = 65_536;

/// How many seconds a server may send nothing, or take nothing.
const PATIENCE: u64 = 60;

/// How a reply of a desk begins, up to its code.
const FIRST: &[u8] = b"HTTP/1.1 ";

/// What may stand behind its first line.
const DATE: &[u8] = b"\r\nDate: ";

/// What stands behind that, or behind its first line.
const NEXT: &[u8] = b"\r\nContent-Type: text/plain; charset=utf-8\r\nContent-Length: ";

/// Sends the message to the server, prints the text of its reply, and gives the exit status.
pub fn ask(rt: &HostRuntime, server: &Server, message: &[u8]) -> Result<u8, Ended> {
    let Ok(mut stream) = TcpStream::connect(rt, server.address.as_str()) else {
        return Err(Ended::NoServer);
    };
    let patience = Some(Duration::from_secs(PATIENCE));
    if stream.set_read_timeout(patience).is_err() || stream.set_write_timeout(patience).is_err() {
        return Err(Ended::NoServer);
    }
    // a server may answer and close before it has read all
    let _sent = stream.write_all(message);
    let reply = reply_of(rt, &mut stream)?;
    let Ok(reply) = undated_reply(rt.alloc(), reply.as_slice()) else {
        return Err(Ended::NoMemory);
    };
    let reply = reply.as_slice();
    match answer_in(rt.alloc(), reply) {
        Ok(Some(told)) => Ok(print(rt, told)),
        Ok(None) if server.may_be_proxied => Ok(print(rt, proxied_in(reply)?)),
        Ok(None) => Err(fault_of(reply)),
        Err(_) => Err(Ended::NoMemory),
    }
}

/// What a reply tells that a proxy wrote anew.
fn proxied_in(reply: &[u8]) -> Result<Answered<'_>, Ended> {
    match seen_in(reply) {
        Seen::Whole(told) => Ok(told),
        Seen::Part => Err(Ended::NoReply),
        Seen::Other => Err(Ended::NoDesk),
    }
}

/// What comes until the server closes, or breaks off, or sends nothing for long. `NoDesk` where it is
/// more than a reply may have.
fn reply_of(rt: &HostRuntime, stream: &mut TcpStream) -> Result<Vec<u8>, Ended> {
    let mut taken = Vec::new(rt.alloc());
    for _turn in 0..MOST {
        match take_some(stream, &mut taken)? {
            0 => return Ok(taken),
            _ => {}
        }
        if is_too_much(taken.as_slice()) {
            return Err(Ended::NoDesk);
        }
    }
    Err(Ended::NoDesk)
}

/// One read, whose bytes go to the end of those taken so far: how many they are. A read that fails is
/// an end.
fn take_some(stream: &mut TcpStream, taken: &mut Vec<u8>) -> Result<usize, Ended> {
    let mut chunk = [0u8; CHUNK];
    let Ok(count) = stream.read(&mut chunk) else {
        return Ok(0);
    };
    match taken.extend_from_slice(&chunk[..count]) {
        Ok(()) => Ok(count),
        Err(_) => Err(Ended::NoMemory),
    }
}

/// Whether the bytes are more than a reply may have.
fn is_too_much(bytes: &[u8]) -> bool {
    match bytes.get(..MOST_HEAD) {
        Some(head) => bytes.len() > MOST || !has_head(head),
        None => false,
    }
}

/// Whether the bytes have an empty line.
fn has_head(bytes: &[u8]) -> bool {
    bytes.windows(4).any(|it| it == b"\r\n\r\n".as_slice())
}

/// What is wrong with a reply that is none of a desk: it ends too soon, if it begins as one.
fn fault_of(bytes: &[u8]) -> Ended {
    let rest = behind_line(bytes);
    if begins_alike(bytes, FIRST) && (begins_alike(rest, NEXT) || begins_alike(rest, DATE)) {
        Ended::NoReply
    } else {
        Ended::NoDesk
    }
}

/// What begins with the first carriage return.
fn behind_line(bytes: &[u8]) -> &[u8] {
    for place in 0..bytes.len() {
        if bytes[place] == b'\r' {
            return &bytes[place..];
        }
    }
    &[]
}

/// Whether one of both is the front of the other.
fn begins_alike(bytes: &[u8], front: &[u8]) -> bool {
    bytes.starts_with(front) || front.starts_with(bytes)
}

/// Prints the text of a reply, and gives the exit status of its code.
fn print(rt: &HostRuntime, told: Answered<'_>) -> u8 {
    if io::writer(rt).write_all(told.text).is_err() {
        return 4;
    }
    match told.code {
        200 | 201 => 0,
        503 => 4,
        _ => 1,
    }
}
