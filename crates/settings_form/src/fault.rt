//! The faults of a settings text before its parts are looked at.

use thiserror::Error;

/// A fault of form.
#[derive(Clone, Copy, Debug, PartialEq, Eq, Error)]
pub enum FormFault {
    /// A table has a key that settings don't have.
    #[error("a table has a key that settings don't have")]
    UnknownKey = 2,
    /// A required key is absent, or a limit has neither unit.
    #[error("a table lacks a key that it must have, or a limit lacks both units")]
    Missing = 3,
    /// A value, or a key that is free, is of another kind or form, or a calendar has a rule beside
    /// an offset or changes.
    #[error("a value or a key is of another kind than is allowed there, or stands beside a rule")]
    WrongKind = 4,
}

/// Why a text isn't one of settings by its form.
#[derive(Clone, Copy, Debug, PartialEq, Eq, Error)]
pub enum TextFault {
    /// The bytes are no TOML.
    #[error("the text is no TOML")]
    NotToml,
    /// A table has a fault of form.
    #[error(transparent)]
    Form(FormFault),
    /// Memory was refused.
    #[error("out of memory")]
    NoMemory,
}
