//! The faults of attaching settings to tables.
ghost use Rattle.std.specs.Prelude.{◌≡◌};
ghost use Rattle.service_core.specs.Fault.{name_of, number_of};

use store_core::StoreFault;
use thiserror::Error;

/// Why settings can't be attached to tables.
#[derive(Clone, Copy, Debug, PartialEq, Eq, Error)]
pub enum AttachFault {
    /// The tables could not be read, or their due moments not written.
    #[error("the tables could not be read: {0}")]
    Store(StoreFault),
    /// The settings lack a name of the tables: a queue's lifecycle or level, a request's level,
    /// owner or status, a watcher, or one who made an entry.
    #[error("the settings don't know a name of the tables")]
    UnknownName,
    /// Out of memory.
    #[error("out of memory")]
    NoMemory,
}

impl AttachFault {
    /// The number by which the fault is told.
    pub fn number(self) -> u8
        ensures { result ≡ number_of self }
    {
        match self {
            AttachFault::Store(_) => 1,
            AttachFault::UnknownName => 2,
            AttachFault::NoMemory => 3,
        }
    }

    /// The name by which the fault is told.
    pub fn name(self) -> &'static str
        ensures { result.now ≡ name_of self }
    {
        match self {
            AttachFault::Store(_) => "Store",
            AttachFault::UnknownName => "UnknownName",
            AttachFault::NoMemory => "NoMemory",
        }
    }
}
