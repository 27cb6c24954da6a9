//! Why no message is made.

use std::alloc::AllocError;
use thiserror::Error;

/// Why no message is made.
#[derive(Clone, Copy, Debug, PartialEq, Eq, Error)]
pub enum AskFault {
    /// The name of the server isn't 1 to 255 printed bytes of ASCII without a space.
    #[error("no name of a server")]
    BadHost,
    /// The token isn't 16 to 64 letters, digits, hyphens and underscores.
    #[error("no token")]
    BadToken,
    /// The body would have more than 65,536 bytes.
    #[error("too long for a message")]
    TooLong,
    /// Memory was refused.
    #[error("out of memory")]
    NoMemory,
}

impl From<AllocError> for AskFault {
    ghost use Rattle.std.specs.Prelude.{◌≡◌};
    ghost use Rattle.client_core.specs.declared.fault.AskFault.TheVariants.{NoMemory};

    ghost from_gives = { λ _ fault. fault ≡ NoMemory };

    fn from(_refused: AllocError) -> AskFault {
        AskFault::NoMemory
    }
}
