//! A desk that answers each message with its number and itself, and notes it.
ghost use Rattle.std.specs.Prelude.{◌≡◌, ◌≤◌};
ghost use Rattle.net_cases.specs.Digit.{digit_of};

use case_net::echo_of;
use connection_core::{Framing, Reply};
use server_core::{Answer, Desk};
use std::alloc::Global;

/// How many messages were answered, and from how many on it is shut.
#[derive(Drop)]
pub struct Echo {
    count: u64,
    is_shut: bool,
    shut_at: u64,
}

impl Echo {
    /// One that is shut once it has answered so many.
    pub fn new(shut_at: u64) -> Echo {
        Echo {
            count: 0,
            is_shut: false,
            shut_at,
        }
    }

    /// How many messages were answered.
    pub fn count(&self) -> u64 {
        self.count
    }
}

/// The digit that a byte is; 0 for any other byte.
fn digit_of(byte: u8) -> u32
    ensures is { result ≡ digit_of byte }
    ensures small { result ≤ 9 }
{
    if b'0' <= byte && byte <= b'9' {
        u32::from(byte - b'0')
    } else {
        0
    }
}

impl Framing for Echo {
    ghost use Rattle.std.specs.Prelude.{◌≡◌};
    ghost use Rattle.net_cases.specs.Digit as form;

    ghost States = { λ head said. said ≡ form.stated head };

    ghost limit = { 9 };

    fn stated(head: &[u8]) -> Option<u32> {
        match head {
            [] => Some(0),
            [first, ..] => Some(digit_of(*first)),
        }
    }
}

impl Desk for Echo {
    ghost use Rattle.std.specs.Prelude.{⊤};

    ghost Steps = { λ old answered new. ⊤ };

    ghost shuts = { λ desk. desk.is_shut };

    fn step(&mut self, alloc: Global, _minute: u32, message: &[u8]) -> Answer {
        self.count = self.count.saturating_add(1);
        self.is_shut = self.count >= self.shut_at;
        let reply = match echo_of(alloc, self.count, message) {
            Ok(reply) => Reply::Made(reply),
            Err(_) => Reply::Fixed(b"no memory"),
        };
        let note = match message.to_vec(alloc) {
            Ok(note) => note,
            Err(_) => Vec::new(alloc),
        };
        Answer { reply, note }
    }

    fn is_shut(&self) -> bool {
        self.is_shut
    }
}
