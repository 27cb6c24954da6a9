//! A server over tables, on the loopback.
ghost use Rattle.std.specs.Prelude.{◌≡◌, false};
ghost use Rattle.desk_web.specs.Status as form;

use crate::options::Asked;
use crate::system::FileAndClock;
use desk_program::{open_desk, tell_store_fault};
use poll_host::PollHost;
use server_core::Ending;
use sqlite::Connection;
use std::alloc::AllocError;
use std::io::{self, Write};
use std::net::SocketAddr;
use store_core::{Backend, Store, StoreFault};
use stream_core::CountedWriter;
use web_core::{System, WebDesk, serve_web};

/// The exit status where as many messages were answered as were to be, or the server was asked to stop.
const DONE: u8 = 0;

/// The exit status where the port can't be listened on, or a write failed.
const NO_NETWORK: u8 = 4;

/// The exit status where the tables have a name that the settings lack: another start changes nothing.
const UNKNOWN_NAME: u8 = 5;

/// The line that tells that.
const UNKNOWN_NAME_LINE: &[u8] = b"attach: 2 UnknownName\n";

/// How many connections are served at once.
const PLACES: usize = 256;

/// Serves the desk over these tables, and gives them back, if there was a desk.
pub fn serve_over<S: Backend + Drop, W: Write>(
    rt: &HostRuntime,
    asked: &Asked<'_>,
    settings: &[u8],
    tables: Connection<S>,
    output: &mut W,
) -> (u8, Option<Connection<S>>)
    requires { tables.in_transaction ≡ false }
{
    let mut line = Vec::new(rt.alloc());
    let mut told = CountedWriter::new(&mut line);
    match open_desk(rt.alloc(), Store::adopt(tables), settings, &mut told) {
        Ok(desk) => {
            let system = FileAndClock {
                rt,
                tables: asked.tables,
                place: asked.copies,
                made: 0,
                second: None,
            };
            let mut web = WebDesk::new(rt.alloc(), desk, system, asked.proxied, asked.https);
            let status = listen(rt, asked, &mut web);
            let (store, _) = web.into_desk().detach();
            (status, Some(store.release()))
        }
        Err(status) => (tell_fault(line.as_slice(), status, output), None),
    }
}

/// Prints the line of a fault of opening, and answers the exit status.
fn tell_fault<W: Write>(line: &[u8], status: u8, output: &mut W) -> u8 {
    match output.write_all(line) {
        Ok(()) => after_line(line, status),
        Err(_) => NO_NETWORK,
    }
}

/// The exit status after this line: one of its own where it tells of a name that the settings lack, and
/// else this one.
fn after_line(line: &[u8], status: u8) -> u8
    ensures { result ≡ form.after_line line.now status }
{
    if line == UNKNOWN_NAME_LINE {
        UNKNOWN_NAME
    } else {
        status
    }
}

/// Listens on the loopback, and serves all who connect.
fn listen<S: Backend, C: System>(
    rt: &HostRuntime,
    asked: &Asked<'_>,
    desk: &mut WebDesk<S, C>,
) -> u8 {
    let address = SocketAddr::from(([127, 0, 0, 1], asked.port));
    let Ok(mut host) = PollHost::listen(rt.alloc(), rt, address, asked.log) else {
        return refuse_network(rt);
    };
    let port = asked.port;
    if println!(rt; "listening {port}").is_err() {
        return NO_NETWORK;
    }
    let most = match asked.count {
        Some(count) => u64::from(count),
        None => u64::MAX,
    };
    let ended = serve_web(rt.alloc(), &mut host, desk, PLACES, most);
    tell_ending(rt, ended, desk.is_shut())
}

/// Prints why the server ended, if not by its count and not since it was asked to, and answers the exit
/// status.
fn tell_ending(rt: &HostRuntime, ended: Result<Ending, AllocError>, is_shut: bool) -> u8 {
    match ended {
        Ok(Ending::Shut) if is_shut => {
            tell_store_fault(
                StoreFault::Refused,
                &mut CountedWriter::new(&mut io::writer(rt)),
            )
        }
        Ok(Ending::Counted | Ending::Shut) => DONE,
        Ok(Ending::Network | Ending::OutOfTurns) | Err(_) => refuse_network(rt),
    }
}

/// Prints that the network failed.
fn refuse_network(rt: &HostRuntime) -> u8 {
    let _told = println!(rt; "net");
    NO_NETWORK
}
