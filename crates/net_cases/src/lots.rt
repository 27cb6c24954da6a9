//! Clients by lot.

use case_net::{Client, End, Takes};
use std::alloc::{AllocError, Global};

/// Numbers by lot, the same each time.
#[derive(Drop)]
pub struct Lots {
    state: u64,
}

impl Lots {
    pub fn new(state: u64) -> Lots {
        Lots { state }
    }

    /// A number below this one, which isn't 0.
    fn below(&mut self, bound: u64) -> u64 {
        self.state = self
            .state
            .wrapping_mul(6_364_136_223_846_793_005)
            .wrapping_add(1_442_695_040_888_963_407);
        (self.state >> 33) % bound.max(1)
    }

    fn end(&mut self) -> End {
        match self.below(16) {
            0 => End::Stays,
            1 | 2 => End::Breaks,
            _ => End::Ends,
        }
    }

    fn takes(&mut self) -> Takes {
        match self.below(8) {
            0 => Takes::AtOnce(1),
            1 => Takes::Fails(self.below(2) as usize),
            2 => Takes::AtOnce(3),
            _ => Takes::AtOnce(999),
        }
    }

    /// The bytes of a message with this number: mostly whole, some cut off, some with more behind.
    fn sent(&mut self, alloc: Global, number: usize) -> Result<Vec<u8>, AllocError> {
        let body = self.below(10);
        let text = match self.below(4) {
            0 => format!(in alloc; "{body} {number}\n\n"),
            1 => format!(in alloc; "{body} {number}\r\nline\r\n\r\n"),
            2 => format!(in alloc; "{body} {number}\r\n\n"),
            _ => format!(in alloc; "\r\n{number}\n\r\n"),
        }?;
        let mut sent = Vec::from_slice(alloc, text.as_bytes())?;
        sent.extend_from_slice(b"0123456789")?;
        let behind = self.below(20) as usize;
        sent.truncate(text.len().saturating_add(behind).saturating_sub(5));
        Ok(sent)
    }

    /// A client that comes at this moment, which is its number too.
    pub fn client(&mut self, alloc: Global, number: usize) -> Result<Client, AllocError> {
        Ok(Client {
            sent: self.sent(alloc, number)?,
            piece: self.below(12) as usize,
            pauses: self.below(3) == 0,
            end: self.end(),
            takes: self.takes(),
            comes: number as u64,
        })
    }
}
