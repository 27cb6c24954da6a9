//! A server over tables, on the loopback.
ghost use Rattle.std.specs.Prelude.{◌≡◌, false};

use desk_program::{CountedListener, Serving, Status, open_desk_whole, serve_on};
use service_core::Desk;
use sqlite::Connection;
use std::io::Write;
use std::net::TcpListener;
use store_core::{Backend, Store};
use stream_core::CountedWriter;

/// Serves the desk over these tables, and gives them back.
pub fn serve_over<S: Backend, W: Write>(
    rt: &HostRuntime,
    serving: &Serving<'_>,
    settings: &[u8],
    tables: Connection<S>,
    output: &mut W,
) -> (u8, Connection<S>)
    requires { tables.in_transaction ≡ false }
{
    let mut output = CountedWriter::new(output);
    match open_desk_whole(rt.alloc(), Store::adopt(tables), settings, &mut output) {
        Ok(mut desk) => {
            let status = listen(rt, serving, &mut desk);
            let (store, _) = desk.detach();
            (status, store.release())
        }
        Err((status, store)) => (status, store.release()),
    }
}

/// Listens on the loopback, and answers so many connections.
fn listen<S: Backend>(rt: &HostRuntime, serving: &Serving<'_>, desk: &mut Desk<S>) -> u8 {
    let Ok(listener) = TcpListener::bind(rt, ("127.0.0.1", serving.port)) else {
        return refuse_network(rt);
    };
    let port = serving.port;
    if println!(rt; "listening {port}").is_err() {
        return u8::from(Status::Failed);
    }
    let mut listener = CountedListener::new(&listener);
    let status = serve_on(rt.alloc(), &mut listener, serving.count, rt, desk);
    if listener.failed() {
        refuse_network(rt)
    } else {
        status
    }
}

/// Prints that the network failed.
fn refuse_network(rt: &HostRuntime) -> u8 {
    let _told = println!(rt; "net");
    u8::from(Status::Failed)
}
