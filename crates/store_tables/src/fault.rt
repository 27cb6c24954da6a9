//! The faults of a store.
ghost use Rattle.std.specs.Prelude.{◌≡◌};
ghost use Rattle.desk_model.specs.declared.refusal.Refusal.TheVariants.{Unavailable};
ghost use Rattle.store_tables.specs.Fault.{number_of, name_of};

use desk_model::Refusal;
use thiserror::Error;

/// Why the store didn't do what it was asked.
#[derive(Clone, Copy, Debug, PartialEq, Eq, Error)]
pub enum StoreFault {
    /// The tables are of another version.
    #[error("the tables are of another version")]
    WrongVersion = 1,
    /// A row is no value of its type.
    #[error("a row of the tables is no value of its type")]
    Mismatch = 2,
    /// A statement, or memory, was refused.
    #[error("a statement or memory was refused")]
    Refused = 3,
}

impl StoreFault {
    /// The number by which the fault is told.
    pub fn number(self) -> u8
        ensures { result ≡ number_of self }
    {
        self as u8
    }

    /// The name by which the fault is told.
    pub fn name(self) -> &'static str
        ensures { result.now ≡ name_of self }
    {
        match self {
            StoreFault::WrongVersion => "WrongVersion",
            StoreFault::Mismatch => "Mismatch",
            StoreFault::Refused => "Refused",
        }
    }
}

/// What a command answers where its store didn't do what it was asked, for whichever fault.
impl From<StoreFault> for Refusal {
    ghost from_gives = { λ _ refusal. refusal ≡ Unavailable };

    fn from(_fault: StoreFault) -> Refusal {
        Refusal::Unavailable
    }
}
