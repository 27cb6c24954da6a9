//! Why persons, groups and grants make no people.

use std::alloc::AllocError;
use thiserror::Error;

/// Why persons, groups and grants make no people. Where several faults apply, the one with the
/// least number is answered.
#[derive(Clone, Copy, Debug, PartialEq, Eq, Error)]
pub enum RightsFault {
    /// A person, a group or a grant's queue has no name's form, or a grant's right no right's
    /// name's.
    #[error("a name isn't 1 to 20 of a-z, 0-9, - and _, or a right isn't 1 to 32 letters")]
    BadName = 1,
    /// Two of the persons and groups have one name.
    #[error("two of the persons and groups have one name")]
    Repeated = 2,
    /// A member of a group is neither a person nor a group.
    #[error("a member of a group is neither a person nor a group")]
    UnknownMember = 3,
    /// A grant is for a person or a group that isn't there.
    #[error("a grant is for a person or a group that isn't there")]
    UnknownSubject = 4,
    /// Memory was refused.
    #[error("out of memory")]
    NoMemory = 5,
}

impl From<AllocError> for RightsFault {
    ghost use Rattle.std.specs.Prelude.{◌≡◌};
    ghost use Rattle.rights_core.specs.declared.fault.RightsFault.TheVariants.{NoMemory};

    ghost from_gives = { λ _ e. e ≡ NoMemory };

    fn from(_error: AllocError) -> RightsFault {
        RightsFault::NoMemory
    }
}

impl RightsFault {
    ghost use Rattle.std.specs.Prelude.{◌≡◌};
    ghost use Rattle.rights_core.specs.RightsFaults.{number_of, name_of};

    /// The fault's number, 1 to 5.
    pub fn number(self) -> u8
        ensures { result ≡ number_of self }
    {
        self as u8
    }

    /// The fault's name, as the variant is written.
    pub fn name(self) -> &'static str
        ensures { result.now ≡ name_of self }
    {
        match self {
            RightsFault::BadName => "BadName",
            RightsFault::Repeated => "Repeated",
            RightsFault::UnknownMember => "UnknownMember",
            RightsFault::UnknownSubject => "UnknownSubject",
            RightsFault::NoMemory => "NoMemory",
        }
    }
}
