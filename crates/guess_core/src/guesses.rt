//! Wrong tokens, by the addresses from which they came.

ghost use Rattle.std.specs.Prelude.{◌≡◌, [], IfOk, OnErr, OnOk};
ghost use Rattle.guess_core.specs.Guesses as spec;

use std::alloc::{AllocError, Global};
use std::marker::Model;
use text_core::Sequence;

/// How many wrong tokens of a minute bar their address.
const BARRING: usize = 10;

/// How many wrong tokens of a minute are noted.
const PLACES: usize = 10_240;

/// From which addresses the wrong tokens of a minute came, in their order.
#[derive(Drop)]
pub struct Guesses {
    minute: u32,
    wrong: Vec<Sequence<u8>>,
}

impl Model for Guesses {
    ghost use Rattle.guess_core.specs.Guesses as spec;

    ghost Value = { spec.Table };

    ghost view = { λ g. spec.table g.minute g.wrong.items };
}

impl Guesses {
    /// No token was wrong yet.
    pub fn new(alloc: Global) -> Guesses
        ensures { result ≡ spec.table 0 [] }
    {
        Guesses {
            minute: 0,
            wrong: Vec::new(alloc),
        }
    }

    /// Whether an address is barred at a minute: ten wrong tokens from it were noted in that minute.
    pub fn is_barred(&self, address: &[u8], minute: u32) -> bool
        ensures { result ≡ spec.is_barred self.now address.now minute }
    {
        self.minute == minute && self.wrong_of(address) >= BARRING
    }

    /// How many wrong tokens of its minute came from an address.
    fn wrong_of(&self, address: &[u8]) -> usize
        ensures { result ≡ spec.count_of self.now.wrong address.now }
    {
        self.wrong
            .iter()
            .filter(|wrong| wrong.as_slice() == address)
            .count()
    }

    /// Notes a wrong token from an address at a minute, and forgets those of another minute. It isn't
    /// noted where the table is full, or memory is refused.
    pub fn note_wrong(
        &mut self,
        alloc: Global,
        address: &[u8],
        minute: u32,
    ) -> Result<(), AllocError>
        ensures ok { OnOk result (self.new ≡ spec.noted self.old address.now minute) }
        ensures err { OnErr result (self.new ≡ spec.begun self.old minute) }
    {
        self.begin(minute);
        if self.wrong.len() < PLACES {
            let address = copy_of(alloc, address)?;
            self.wrong.push(address)?;
        }
        Ok(())
    }

    /// Forgets what isn't of this minute.
    fn begin(&mut self, minute: u32)
        ensures { self.new ≡ spec.begun self.old minute }
    {
        if self.minute != minute {
            self.minute = minute;
            self.wrong.clear();
        }
    }
}

fn copy_of(alloc: Global, bytes: &[u8]) -> Result<Sequence<u8>, AllocError>
    ensures { IfOk result (λ copy. copy ≡ bytes.now) }
{
    let mut copy = Vec::new(alloc);
    copy.extend_from_slice(bytes)?;
    Ok(Sequence::from(copy))
}
