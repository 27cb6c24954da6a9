//! Why a zone or a calendar is not built.

ghost use Rattle.std.specs.Prelude.{◌≡◌};
ghost use Rattle.hours_core.specs.Fault.{number_of, name_of};

use std::alloc::AllocError;
use thiserror::Error;

/// Why a zone or a calendar isn't built. Where several apply, the one with the least number is
/// answered.
#[derive(Clone, Copy, Debug, PartialEq, Eq, Error)]
pub enum HoursFault {
    /// An offset of a day or more.
    #[error("an offset is a day or more: at most 1,439 minutes before or after UTC are allowed")]
    BadOffset = 1,
    /// A change's minute isn't from 0 to the end of all moments, or isn't after the one before.
    #[error("a change is before 1970, after 2100-01-01 00:00 or not after the change before it")]
    ChangesOutOfOrder = 2,
    /// An interval is empty, passes the day's end or begins before the end of the one before, or a
    /// day has over four.
    #[error("an interval is empty, out of order or past 24:00, or a day has more than four")]
    BadInterval = 3,
    /// A year isn't from 2000 to 2099, or the first is after the last.
    #[error("a year is not from 2000 to 2099, or the first is after the last")]
    BadYears = 4,
    /// Over 400 changes.
    #[error("a zone has more than 400 changes")]
    TooManyChanges = 5,
    /// Memory was refused.
    #[error("out of memory")]
    NoMemory = 6,
    /// A text is no rule of local time.
    #[error("a rule of local time can't be read; it is written like CET-1CEST,M3.5.0,M10.5.0/3")]
    BadRule = 7,
}

impl HoursFault {
    /// The number by which the fault is told.
    pub fn number(self) -> u8
        ensures { result ≡ number_of self }
    {
        self as u8
    }

    /// The name by which the fault is told.
    pub fn name(self) -> &'static str
        ensures { result.now ≡ name_of self }
    {
        match self {
            HoursFault::BadOffset => "BadOffset",
            HoursFault::ChangesOutOfOrder => "ChangesOutOfOrder",
            HoursFault::BadInterval => "BadInterval",
            HoursFault::BadYears => "BadYears",
            HoursFault::TooManyChanges => "TooManyChanges",
            HoursFault::NoMemory => "NoMemory",
            HoursFault::BadRule => "BadRule",
        }
    }
}

impl From<AllocError> for HoursFault {
    ghost use Rattle.std.specs.Prelude.{◌≡◌};
    ghost use Rattle.hours_core.specs.declared.fault.HoursFault.TheVariants.{NoMemory};

    ghost from_gives = { λ _ e. e ≡ NoMemory };

    fn from(_refused: AllocError) -> HoursFault {
        HoursFault::NoMemory
    }
}
