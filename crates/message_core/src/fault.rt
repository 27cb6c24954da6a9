//! Why bytes are no message.

ghost use Rattle.std.specs.Prelude.{◌≡◌};
ghost use Rattle.message_core.specs.Fault.{name_of, number_of};

use std::alloc::AllocError;
use thiserror::Error;

/// Why a stream gives no message. They are looked for in the order in which a message is read: its
/// head, the length that the head states, the body.
#[derive(Clone, Copy, Debug, PartialEq, Eq, Error)]
pub enum WireFault {
    /// The head states a length over 65,536 bytes.
    #[error("a body must be at most 65536 bytes long")]
    TooLong = 1,
    /// The stream ends before the body does.
    #[error("the message ends before its body does")]
    Truncated = 2,
    /// The stream doesn't begin with the head of a request of at most 8,192 bytes and 32 header
    /// lines.
    #[error("the message has no head, or too long a head")]
    BadHead = 3,
    /// The head has a `Transfer-Encoding`, two `Content-Length` lines, or one that isn't digits.
    #[error("the length of a body must be stated once, in digits")]
    BadLength = 4,
    /// A read failed.
    #[error("a read failed")]
    Read = 5,
    /// Memory was refused.
    #[error("out of memory")]
    NoMemory = 6,
}

impl WireFault {
    /// The number by which the fault is told.
    pub fn number(self) -> u8
        ensures { result ≡ number_of self }
    {
        self as u8
    }

    /// The name by which the fault is told.
    pub fn name(self) -> &'static str
        ensures { result.now ≡ name_of self }
    {
        match self {
            WireFault::TooLong => "TooLong",
            WireFault::Truncated => "Truncated",
            WireFault::BadHead => "BadHead",
            WireFault::BadLength => "BadLength",
            WireFault::Read => "Read",
            WireFault::NoMemory => "NoMemory",
        }
    }
}

impl From<AllocError> for WireFault {
    ghost use Rattle.std.specs.Prelude.{◌≡◌};
    ghost use Rattle.message_core.specs.declared.fault.WireFault.TheVariants.{NoMemory};

    ghost from_gives = { λ _ fault. fault ≡ NoMemory };

    fn from(_refused: AllocError) -> WireFault {
        WireFault::NoMemory
    }
}
