//! Why a stream was cut short.
ghost use Rattle.std.specs.Prelude.{◌≡◌};
ghost use Rattle.desk_model.specs.declared.refusal.Refusal.TheVariants.{Unavailable};
ghost use Rattle.desk_reports.specs.Fault.{name_of, number_of};
ghost use Rattle.desk_reports.specs.declared.fault.StreamFault.TheVariants.{Refused};

use desk_core::Refusal;
use std::alloc::AllocError;
use store_core::StoreFault;
use thiserror::Error;

/// Why a stream was cut short.
#[derive(Debug, Drop, Error)]
pub enum StreamFault {
    /// The command was refused. As `Unavailable` it may be so after a part of the text.
    #[error("the list was refused: {0}")]
    Refused(Refusal),
    /// A write failed, or took no byte.
    #[error("the list could not be written")]
    Write,
}

impl StreamFault {
    /// The number by which the fault is told.
    pub fn number(&self) -> u8
        ensures { result ≡ number_of self.now }
    {
        match self {
            StreamFault::Refused(_) => 1,
            StreamFault::Write => 2,
        }
    }

    /// The name by which the fault is told.
    pub fn name(&self) -> &'static str
        ensures { result.now ≡ name_of self.now }
    {
        match self {
            StreamFault::Refused(_) => "Refused",
            StreamFault::Write => "Write",
        }
    }
}

impl From<StoreFault> for StreamFault {
    ghost from_gives = { λ _ fault. fault ≡ Refused Unavailable };

    fn from(_fault: StoreFault) -> StreamFault {
        StreamFault::Refused(Refusal::Unavailable)
    }
}

impl From<AllocError> for StreamFault {
    ghost from_gives = { λ _ fault. fault ≡ Refused Unavailable };

    fn from(_error: AllocError) -> StreamFault {
        StreamFault::Refused(Refusal::Unavailable)
    }
}
