//! Why no reply was written whole.

ghost use Rattle.std.specs.Prelude.{◌≡◌};
ghost use Rattle.wire_core.specs.Fault.{name_of, number_of};

use thiserror::Error;

/// Why no reply was written, or not the whole of it.
#[derive(Clone, Copy, Debug, PartialEq, Eq, Error)]
pub enum ServeFault {
    /// A read failed. Nothing was written, and nothing was done.
    #[error("a read failed")]
    Read = 1,
    /// A write failed. A part of the reply may have gone out; what the message asked for stands.
    #[error("a write failed")]
    Write = 2,
    /// Memory was refused. Nothing was written, and nothing was done.
    #[error("out of memory")]
    NoMemory = 3,
}

impl ServeFault {
    /// The number by which the fault is told.
    pub fn number(self) -> u8
        ensures { result ≡ number_of self }
    {
        self as u8
    }

    /// The name by which the fault is told.
    pub fn name(self) -> &'static str
        ensures { result.now ≡ name_of self }
    {
        match self {
            ServeFault::Read => "Read",
            ServeFault::Write => "Write",
            ServeFault::NoMemory => "NoMemory",
        }
    }
}

/// Why a message has no reply of its own.
#[derive(Clone, Copy, Debug, PartialEq, Eq)]
pub(crate) enum Unanswered {
    /// There is no room for a reply. Nothing was read.
    NoRoom,
    /// A read failed.
    Unread,
}
