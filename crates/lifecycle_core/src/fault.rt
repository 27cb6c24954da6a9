//! Why parts make no lifecycle.

ghost use Rattle.std.specs.Prelude.{◌≡◌};
ghost use Rattle.lifecycle_core.specs.Fault.{number_of, name_of};

use std::alloc::AllocError;
use thiserror::Error;

/// Why parts make no lifecycle. Where several faults apply, the one with the least number is
/// answered.
#[derive(Clone, Copy, Debug, PartialEq, Eq, Error)]
pub enum LifecycleFault {
    /// A status is no name, or a right no right's name.
    #[error("a status must be a name, and a right 1 to 32 letters")]
    BadName = 1,
    /// A status is named twice over the three lists, or a pair of statuses has two rights.
    #[error("each status stands once over the three lists, and each pair of them has one right")]
    Repeated = 2,
    /// No status is initial.
    #[error("at least one status must be initial")]
    NoInitial = 3,
    /// No status is active.
    #[error("at least one status must be active")]
    NoActive = 4,
    /// The status on creation, one for creation, of a move or of a right isn't one of the lists.
    #[error("only statuses of the three lists may be named elsewhere, and `*` in rights")]
    UnknownStatus = 5,
    /// A move leads from a status to itself.
    #[error("a move must lead from a status to another one")]
    SelfMove = 6,
    /// The status on creation isn't one of those for creation.
    #[error("the status on_create must be one of create")]
    BadOnCreate = 7,
    /// Memory was refused.
    #[error("out of memory")]
    NoMemory = 8,
}

impl LifecycleFault {
    /// The number by which the fault is told.
    pub fn number(self) -> u8
        ensures { result ≡ number_of self }
    {
        self as u8
    }

    /// The name by which the fault is told.
    pub fn name(self) -> &'static str
        ensures { result.now ≡ name_of self }
    {
        match self {
            LifecycleFault::BadName => "BadName",
            LifecycleFault::Repeated => "Repeated",
            LifecycleFault::NoInitial => "NoInitial",
            LifecycleFault::NoActive => "NoActive",
            LifecycleFault::UnknownStatus => "UnknownStatus",
            LifecycleFault::SelfMove => "SelfMove",
            LifecycleFault::BadOnCreate => "BadOnCreate",
            LifecycleFault::NoMemory => "NoMemory",
        }
    }
}

impl From<AllocError> for LifecycleFault {
    ghost use Rattle.std.specs.Prelude.{◌≡◌};
    ghost use Rattle.lifecycle_core.specs.declared.fault.LifecycleFault.TheVariants.{NoMemory};

    ghost from_gives = { λ _ e. e ≡ NoMemory };

    fn from(_refused: AllocError) -> LifecycleFault {
        LifecycleFault::NoMemory
    }
}
