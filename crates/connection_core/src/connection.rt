//! One connection.
ghost use Rattle.std.specs.Prelude.{◌≡◌, ◌≤◌, ◌<◌, ◌+◌, ◌-◌, ◌^◌, [], ◌∷◌, OnOk, OnErr, length, drop};
ghost use Rattle.std.specs.Vec.{vec_capacity, vec_len};
ghost use Rattle.connection_core.specs.Machine as machine;
ghost use Rattle.connection_core.specs.Reply.{bytes_of};

use crate::framing::Framing;
use crate::phase::{Part, Phase, phase_after};
use crate::reply::Reply;
use std::alloc::{AllocError, Global};

/// How many milliseconds a connection has to send its message.
pub const READING: u64 = 30_000;

/// How many milliseconds it has to take its reply.
pub const WRITING: u64 = 30_000;

/// For how many milliseconds after it what still comes is dropped.
pub const LINGERING: u64 = 2_000;

/// A connection: the bytes that came of its message, those that are left of its reply, and when it
/// is dropped.
#[derive(Drop)]
pub struct Connection {
    phase: Phase,
    came: Vec<u8>,
    reply: Reply,
    sent: usize,
    deadline: u64,
    more: bool,
    ghost within: { sent ≤ length (bytes_of reply) },
}

fn later(now: u64, wait: u64) -> u64
    ensures { result ≡ machine.later now wait }
{
    now.saturating_add(wait)
}

impl Connection {
    ghost use Rattle.connection_core.specs.Seen.{seen};

    /// One that is over.
    pub fn closed(alloc: Global) -> Connection
        ensures { seen result ≡ machine.closed }
    {
        Connection {
            phase: Phase::Closed,
            came: Vec::new(alloc),
            reply: Reply::Fixed(b""),
            sent: 0,
            deadline: 0,
            more: false,
        }
    }

    /// One that was accepted at this moment.
    pub fn open(alloc: Global, now: u64) -> Connection
        ensures { seen result ≡ machine.opened now }
    {
        Connection {
            phase: Phase::Reading(Part::Blank),
            came: Vec::new(alloc),
            reply: Reply::Fixed(b""),
            sent: 0,
            deadline: later(now, READING),
            more: false,
        }
    }

    pub fn phase(&self) -> Phase
        ensures { result ≡ (seen self.now).phase }
    {
        self.phase
    }

    /// The moment at which it is dropped.
    pub fn deadline(&self) -> u64
        ensures { result ≡ (seen self.now).deadline }
    {
        self.deadline
    }

    /// The bytes of its message.
    pub fn message(&self) -> &[u8]
        ensures { result.now ≡ (seen self.now).came }
    {
        self.came.as_slice()
    }

    /// The bytes of its reply that are left to write.
    pub fn left(&self) -> &[u8]
        ensures { result.now ≡ (seen self.now).left }
    {
        &self.reply.bytes()[self.sent..]
    }

    /// The peer has sent these. `AllocError` where there is no room for them and memory is refused.
    pub fn take<F: Framing>(&mut self, bytes: &[u8]) -> Result<(), AllocError>
        ensures ok { OnOk result (machine.Hears F.States (seen self.old) bytes.now (seen self.new)) }
        ensures err { OnErr result (seen self.new ≡ seen self.old) }
    {
        self.came.reserve(bytes.len())?;
        for byte in bytes {
            self.take_byte::<F>(*byte);
        }
        Ok(())
    }

    /// One more byte has come.
    fn take_byte<F: Framing>(&mut self, byte: u8)
        requires room { vec_len self.old.came < vec_capacity self.old.came }
        ensures took { machine.Hears F.States (seen self.old) (byte ∷ []) (seen self.new) }
        ensures len { vec_len self.new.came ≤ vec_len self.old.came + 1 }
        ensures capacity { vec_capacity self.new.came ≡ vec_capacity self.old.came }
    {
        match self.phase {
            Phase::Reading(part) => {
                self.came.push_reserved(byte);
                let (phase, more) = phase_after::<F>(part, byte, self.came.as_slice());
                self.phase = phase;
                self.more = more;
            }
            Phase::Ready | Phase::Writing | Phase::Lingering => self.more = true,
            Phase::Closed => {}
        }
    }

    /// The peer sends no more.
    pub fn end(&mut self, alloc: Global)
        ensures { seen self.new ≡ machine.ended (seen self.old) }
    {
        match self.phase {
            Phase::Reading(_) => {
                if self.came.is_empty() {
                    self.close(alloc);
                } else {
                    self.phase = Phase::Ready;
                }
            }
            Phase::Lingering => self.close(alloc),
            Phase::Ready | Phase::Writing | Phase::Closed => {}
        }
    }

    /// Its message is answered at this moment.
    pub fn answer(&mut self, alloc: Global, reply: Reply, now: u64)
        requires { (seen self.old).phase ≡ Phase.Ready }
        ensures { seen self.new ≡ machine.answered (seen self.old).more (bytes_of reply) now }
    {
        *self = Connection {
            phase: Phase::Writing,
            came: Vec::new(alloc),
            reply,
            sent: 0,
            deadline: later(now, WRITING),
            more: self.more,
        };
    }

    /// So many bytes of its reply were written at this moment.
    pub fn wrote(&mut self, alloc: Global, count: usize, now: u64)
        requires phase { (seen self.old).phase ≡ Phase.Writing }
        requires within { count ≤ length (seen self.old).left }
        ensures { seen self.new ≡ machine.wrote (seen self.old) count now }
    {
        let whole = self.reply.bytes().len();
        if count < whole - self.sent {
            self.sent += count;
        } else {
            *self = Connection {
                phase: Phase::Lingering,
                came: Vec::new(alloc),
                reply: Reply::Fixed(b""),
                sent: 0,
                deadline: later(now, LINGERING),
                more: self.more,
            };
        }
    }

    /// Nothing waits to be read: it is over, if its reply has gone out and no more than its message
    /// came or may come.
    pub fn settle(&mut self, alloc: Global)
        ensures { seen self.new ≡ machine.settled (seen self.old) }
    {
        match self.phase {
            Phase::Lingering => {
                if !self.more {
                    self.close(alloc);
                }
            }
            Phase::Reading(_) | Phase::Ready | Phase::Writing | Phase::Closed => {}
        }
    }

    /// It is dropped.
    pub fn close(&mut self, alloc: Global)
        ensures { seen self.new ≡ machine.closed }
    {
        *self = Connection::closed(alloc);
    }

    /// It is dropped if this moment isn't before its deadline.
    pub fn pass(&mut self, alloc: Global, now: u64)
        ensures { seen self.new ≡ machine.passed (seen self.old) now }
    {
        if self.deadline <= now {
            self.close(alloc);
        }
    }
}
