//! Messages that go over the loopback, in one thread.

use crate::calls::serve_connections;
use crate::connections::put_served;
use crate::failure::Failure;
use crate::served::{Sent, put_reply};
use service_core::Desk;
use std::io::{Read, Write};
use std::net::{TcpListener, TcpStream};
use store_core::Backend;

/// Adds the replies to messages, each sent to a server that answers one connection, and how that
/// ends. A message is sent before the connection is taken, and the client keeps its side open.
pub(crate) fn answer_by_loopback<S: Backend>(
    rt: &HostRuntime,
    out: &mut String,
    sent: &[Sent],
    desk: &mut Desk<S>,
) -> Result<(), Failure> {
    for message in sent {
        let listener = TcpListener::bind(rt, "127.0.0.1:0")?;
        let mut client = TcpStream::connect(rt, listener.local_addr()?)?;
        client.write_all(message.1.as_slice())?;
        let status = serve_connections(rt.alloc(), &listener, 1, rt, desk).status;
        let mut reply = Vec::new(rt.alloc());
        client.read_to_end(&mut reply)?;
        put_reply(rt.alloc(), out, reply.as_slice(), Ok(()))?;
        writeln!(out, "status {status}")?;
    }
    Ok(())
}

/// Lets a client send so many bytes of the first message and leave, and then another one send the
/// second message. Adds the reply to that, and how a server ends that answers both.
pub(crate) fn answer_beside_one_that_leaves<S: Backend>(
    rt: &HostRuntime,
    out: &mut String,
    sent: &[Sent],
    count: u32,
    desk: &mut Desk<S>,
) -> Result<(), Failure> {
    let [first, second] = sent else {
        return Err(Failure::BadLine);
    };
    let listener = TcpListener::bind(rt, "127.0.0.1:0")?;
    let begun = first.1.as_slice().get(..count as usize).unwrap_or(b"");
    drop(sender(rt, &listener, begun)?);
    let mut client = sender(rt, &listener, second.1.as_slice())?;
    let served = serve_connections(rt.alloc(), &listener, 2, rt, desk);
    put_rest(rt, out, &mut client)?;
    put_served(out, served)
}

/// A client that has sent these bytes.
fn sender(rt: &HostRuntime, listener: &TcpListener, bytes: &[u8]) -> Result<TcpStream, Failure> {
    let mut client = TcpStream::connect(rt, listener.local_addr()?)?;
    client.write_all(bytes)?;
    Ok(client)
}

/// Adds what comes to a client.
fn put_rest(rt: &HostRuntime, out: &mut String, client: &mut TcpStream) -> Result<(), Failure> {
    let mut reply = Vec::new(rt.alloc());
    client.read_to_end(&mut reply)?;
    put_reply(rt.alloc(), out, reply.as_slice(), Ok(()))
}
