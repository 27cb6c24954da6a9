//! What answers messages.
ghost use Rattle.std.specs.Prelude.{◌≡◌, Bool};
ghost use Rattle.server_core.specs.Answers.{answered_as};
ghost use Rattle.server_core.specs.Turns.{Answered};

use connection_core::{Framing, Reply};
use std::alloc::Global;

/// What came of a message.
#[derive(Drop)]
pub struct Answer {
    pub reply: Reply,
    /// What the log notes of the message and its reply.
    pub note: Vec<u8>,
}

/// What answers messages, one after the other.
pub trait Desk: Framing {
    // The step of a message: the desk before it, the minute, the bytes of the message, of its reply
    // and of its note, and the desk after it.
    ghost Steps: { Self → Answered → Self → Type 0 };

    /// It can answer no message any more, so that the server has to be started again.
    ghost shuts: { Self → Bool };

    /// Answers a message at this minute, since 1970-01-01 00:00 UTC. Where memory is refused the
    /// reply says so.
    fn step(&mut self, alloc: Global, minute: u32, message: &[u8]) -> Answer
        ensures { Self.Steps self.old (answered_as minute message.now result) self.new };

    /// Whether it can answer no message any more.
    fn is_shut(&self) -> bool
        ensures { result ≡ Self.shuts self.now };
}
