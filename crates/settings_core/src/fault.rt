//! Why a text states no settings.

ghost use Rattle.std.specs.Prelude.{◌≡◌};
ghost use Rattle.std.specs.Option.{option_map};
ghost use Rattle.settings_core.specs.Fault.{number_of, name_of, inner_of, of_text};
ghost use Rattle.settings_core.specs.Fault.{of_hours, of_lifecycle, of_rights};
ghost use Rattle.settings_core.specs.declared.fault.SettingsFault.TheVariants.{NoMemory};

use hours_core::HoursFault;
use lifecycle_core::LifecycleFault;
use rights_core::RightsFault;
use settings_form::fault::{FormFault, TextFault};
use std::alloc::AllocError;
use thiserror::Error;

/// Why a text states no settings. Where several faults apply, the one with the least number is
/// answered.
#[derive(Clone, Copy, Debug, PartialEq, Eq, Error)]
pub enum SettingsFault {
    /// The bytes are no TOML.
    #[error("the text is no TOML")]
    NotToml,
    /// A table has a key that settings don't have.
    #[error("a table has a key that settings don't have")]
    UnknownKey,
    /// A required key is absent, or a limit has neither unit.
    #[error("a table lacks a key that it must have, or a limit lacks both units")]
    Missing,
    /// A value, or a key that is free, is of another kind or form, or a calendar has a rule beside
    /// an offset or changes.
    #[error("a value or a key is of another kind than is allowed there, or stands beside a rule")]
    WrongKind,
    /// A calendar has a fault.
    #[error("in a calendar: {0}")]
    Hours(HoursFault),
    /// A lifecycle has a fault.
    #[error("in a lifecycle: {0}")]
    Lifecycle(LifecycleFault),
    /// The persons, groups and grants have a fault.
    #[error("among persons, groups and grants: {0}")]
    Rights(RightsFault),
    /// A granted right, a level's calendar, a status that a level ignores or a token's person isn't
    /// known.
    #[error("a granted right, a level's calendar or ignored status, or a token's person is unknown")]
    UnknownName,
    /// A token isn't 16 to 64 letters, digits, `-` and `_`.
    #[error("a token must be 16 to 64 letters, digits, `-` and `_`")]
    BadToken,
    /// A limit has both units or isn't from 1 to 525,600, or the most requests or entries are out
    /// of range.
    #[error("limits are 1 to 525,600 minutes in one unit, 1,000,000 requests, 10,000 entries")]
    BadLimit,
    /// Memory was refused.
    #[error("out of memory")]
    NoMemory,
}

impl SettingsFault {
    /// The fault's number, 1 to 11.
    pub fn number(self) -> u8
        ensures { result ≡ number_of self }
    {
        match self {
            SettingsFault::NotToml => 1,
            SettingsFault::UnknownKey => 2,
            SettingsFault::Missing => 3,
            SettingsFault::WrongKind => 4,
            SettingsFault::Hours(_) => 5,
            SettingsFault::Lifecycle(_) => 6,
            SettingsFault::Rights(_) => 7,
            SettingsFault::UnknownName => 8,
            SettingsFault::BadToken => 9,
            SettingsFault::BadLimit => 10,
            SettingsFault::NoMemory => 11,
        }
    }

    /// The fault's name, as the variant is written.
    pub fn name(self) -> &'static str
        ensures { result.now ≡ name_of self }
    {
        match self {
            SettingsFault::NotToml => "NotToml",
            SettingsFault::UnknownKey => "UnknownKey",
            SettingsFault::Missing => "Missing",
            SettingsFault::WrongKind => "WrongKind",
            SettingsFault::Hours(_) => "Hours",
            SettingsFault::Lifecycle(_) => "Lifecycle",
            SettingsFault::Rights(_) => "Rights",
            SettingsFault::UnknownName => "UnknownName",
            SettingsFault::BadToken => "BadToken",
            SettingsFault::BadLimit => "BadLimit",
            SettingsFault::NoMemory => "NoMemory",
        }
    }

    /// The number and the name of the fault inside, if there is one.
    pub fn inner(self) -> Option<(u8, &'static str)>
        ensures { option_map (λ i. (i.0, i.1.now)) result ≡ inner_of self }
    {
        match self {
            SettingsFault::Hours(fault) => Some((fault.number(), fault.name())),
            SettingsFault::Lifecycle(fault) => Some((fault.number(), fault.name())),
            SettingsFault::Rights(fault) => Some((fault.number(), fault.name())),
            _ => None,
        }
    }
}

impl From<TextFault> for SettingsFault {
    ghost from_gives = { λ e f. f ≡ of_text e };

    fn from(fault: TextFault) -> SettingsFault {
        match fault {
            TextFault::NoMemory => SettingsFault::NoMemory,
            TextFault::NotToml => SettingsFault::NotToml,
            TextFault::Form(FormFault::UnknownKey) => SettingsFault::UnknownKey,
            TextFault::Form(FormFault::Missing) => SettingsFault::Missing,
            TextFault::Form(FormFault::WrongKind) => SettingsFault::WrongKind,
        }
    }
}

impl From<HoursFault> for SettingsFault {
    ghost from_gives = { λ e f. f ≡ of_hours e };

    fn from(fault: HoursFault) -> SettingsFault {
        match fault {
            HoursFault::NoMemory => SettingsFault::NoMemory,
            _ => SettingsFault::Hours(fault),
        }
    }
}

impl From<LifecycleFault> for SettingsFault {
    ghost from_gives = { λ e f. f ≡ of_lifecycle e };

    fn from(fault: LifecycleFault) -> SettingsFault {
        match fault {
            LifecycleFault::NoMemory => SettingsFault::NoMemory,
            _ => SettingsFault::Lifecycle(fault),
        }
    }
}

impl From<RightsFault> for SettingsFault {
    ghost from_gives = { λ e f. f ≡ of_rights e };

    fn from(fault: RightsFault) -> SettingsFault {
        match fault {
            RightsFault::NoMemory => SettingsFault::NoMemory,
            _ => SettingsFault::Rights(fault),
        }
    }
}

impl From<AllocError> for SettingsFault {
    ghost from_gives = { λ _ e. e ≡ NoMemory };

    fn from(_error: AllocError) -> SettingsFault {
        SettingsFault::NoMemory
    }
}
