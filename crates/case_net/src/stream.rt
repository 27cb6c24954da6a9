//! The connection of a client.
ghost use Rattle.std.specs.Prelude.{◌≡◌, IfOk};

use crate::client::{Client, End, Takes};
use std::alloc::Global;
use std::io;
use std::io::{ErrorKind, Read, Write};

/// The connection of a client: how much of what it sends was read, and what it was answered.
#[derive(Drop)]
pub struct FakeStream {
    pub name: usize,
    client: Client,
    given: usize,
    waits: bool,
    taken: Vec<u8>,
}

impl FakeStream {
    pub fn new(alloc: Global, name: usize, client: Client) -> FakeStream {
        FakeStream {
            name,
            client,
            given: 0,
            waits: false,
            taken: Vec::new(alloc),
        }
    }

    /// What it was answered so far.
    pub fn taken(&self) -> &[u8] {
        self.taken.as_slice()
    }

    /// Whether that is some number, a colon and the client's message, whole.
    pub fn is_whole(&self) -> bool {
        let Some(length) = self.client.message_len() else {
            return false;
        };
        let taken = self.taken.as_slice();
        let Some(colon) = taken.iter().position(|byte| *byte == b':') else {
            return false;
        };
        let Some(message) = self.client.sent.get(..length) else {
            return false;
        };
        match (taken.get(..colon), taken.get(colon.saturating_add(1)..)) {
            (Some(number), Some(rest)) => are_digits(number) && rest == message,
            _ => false,
        }
    }

    /// What a read gives once all is sent.
    fn after_all(&self) -> io::Result<usize>
        ensures { IfOk result (λ count. count ≡ 0) }
    {
        match self.client.end {
            End::Stays => Err(io::Error::from(ErrorKind::WouldBlock)),
            End::Ends => Ok(0),
            End::Breaks => Err(io::Error::from(ErrorKind::ConnectionReset)),
        }
    }

    /// So many bytes of a reply are taken at most, if any.
    fn room(&self) -> io::Result<usize> {
        match self.client.takes {
            Takes::AtOnce(count) => Ok(count),
            Takes::None => Ok(0),
            Takes::Never => Err(io::Error::from(ErrorKind::WouldBlock)),
            Takes::Fails(count) => {
                let left = count.saturating_sub(self.taken.len());
                if left == 0 {
                    Err(io::Error::from(ErrorKind::ConnectionReset))
                } else {
                    Ok(left)
                }
            }
        }
    }
}

fn are_digits(bytes: &[u8]) -> bool {
    !bytes.is_empty() && bytes.iter().all(|byte| b'0' <= *byte && *byte <= b'9')
}

impl Read for FakeStream {
    fn read(&mut self, buf: &mut [u8]) -> io::Result<usize> {
        let left = self.client.sent.len().saturating_sub(self.given);
        if left == 0 {
            return self.after_all();
        }
        self.waits = !self.waits && self.client.pauses;
        if self.waits {
            return Err(io::Error::from(ErrorKind::WouldBlock));
        }
        let count = self.client.piece.max(1).min(left).min(buf.len());
        for place in 0..count {
            match self.client.sent.get(self.given) {
                Some(byte) => buf[place] = *byte,
                None => return Ok(place),
            }
            self.given = self.given.saturating_add(1);
        }
        Ok(count)
    }
}

impl Write for FakeStream {
    fn write(&mut self, buf: &[u8]) -> io::Result<usize> {
        let count = self.room()?.min(buf.len());
        match self.taken.extend_from_slice(&buf[..count]) {
            Ok(()) => Ok(count),
            Err(_) => Err(io::Error::from(ErrorKind::OutOfMemory)),
        }
    }

    fn flush(&mut self) -> io::Result<()> {
        Ok(())
    }
}
