//! A connection with its stream.
ghost use Rattle.std.specs.Prelude.{◌≡◌, ◌<◌, ℕ, [], ◌∷◌, None, Option, length};
ghost use Rattle.connection_core.specs.Seen.{seen};
ghost use Rattle.connection_core.specs.declared.phase.Phase.TheVariants.{Closed};
ghost use Rattle.server_core.specs.Calls.{Adds, At, Reads, Writes};
ghost use Rattle.server_core.specs.Reads.{HasRead, HasWritten, KeepsMark, KeepsWritable};

use crate::host::{Host, Readiness};
use connection_core::{Connection, Framing, Phase};
use std::alloc::Global;
use std::io::ErrorKind;

/// A place for a connection. Where the connection is closed the place is free; else it has a stream.
#[derive(Drop)]
pub struct Slot<S> {
    pub stream: Option<S>,
    pub connection: Connection,
    ghost held: { stream ≡ None → (seen connection).phase ≡ Closed },
}

/// One read: what came is taken. Where there is no memory for it, the connection is dropped.
#[tactic(auto, using(crate::proofs::StreamLemmas::read_end, crate::proofs::StreamLemmas::read_fault))]
pub fn read_some<F: Framing, H: Host>(
    alloc: Global,
    host: &mut H,
    place: usize,
    stream: &mut H::Stream,
    connection: &mut Connection,
    mark: &mut Readiness,
    buffer: &mut [u8],
)
    requires { 0 < length buffer.old }
    ensures read { (got : Option ℕ)
        × Adds (H.calls host.old) (H.calls host.new) (At place (Reads got) ∷ [])
        × HasRead F.States (H.remaining stream.old) (H.remaining stream.new) got
        (seen connection.old) (seen connection.new)
        × KeepsMark mark.old.readable mark.new.readable got }
    ensures writable { mark.new.writable ≡ mark.old.writable }
    ensures told { H.told host.new ≡ H.told host.old }
{
    match host.read(place, stream, buffer) {
        Ok(0) => connection.end(alloc),
        Ok(count) => match connection.take::<F>(&buffer[..count]) {
            Ok(()) => {}
            Err(_) => connection.close(alloc),
        },
        Err(fault) => match fault.kind() {
            ErrorKind::WouldBlock => mark.readable = false,
            ErrorKind::Interrupted => {}
            _ => connection.close(alloc),
        },
    }
}

/// One write: what is left of the reply, as far as it is taken.
#[tactic(auto, using(crate::proofs::StreamLemmas::write_took, crate::proofs::StreamLemmas::write_fault))]
pub fn write_some<H: Host>(
    alloc: Global,
    host: &mut H,
    place: usize,
    stream: &mut H::Stream,
    connection: &mut Connection,
    mark: &mut Readiness,
    now: u64,
)
    requires { (seen connection.old).phase ≡ Phase.Writing }
    ensures written { (took : Option ℕ)
        × Adds (H.calls host.old) (H.calls host.new) (At place (Writes took) ∷ [])
        × HasWritten now (H.contents stream.old) (H.contents stream.new) took
        (seen connection.old) (seen connection.new)
        × KeepsWritable mark.old.writable mark.new.writable took }
    ensures readable { mark.new.readable ≡ mark.old.readable }
    ensures told { H.told host.new ≡ H.told host.old }
{
    match host.write(place, stream, connection.left()) {
        Ok(count) => {
            if count == 0 {
                mark.writable = false;
            }
            connection.wrote(alloc, count, now);
        }
        Err(fault) => match fault.kind() {
            ErrorKind::WouldBlock => mark.writable = false,
            ErrorKind::Interrupted => {}
            _ => connection.close(alloc),
        },
    }
}
