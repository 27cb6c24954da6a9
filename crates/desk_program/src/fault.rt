//! Why an input is no script.

ghost use Rattle.std.specs.Prelude.{◌≡◌};
ghost use Rattle.desk_program.specs.Fault.{name_of};

use thiserror::Error;

/// Why an input is no script. Where several apply, the first of these is told.
#[derive(Clone, Copy, Debug, PartialEq, Eq, Error)]
pub enum InputFault {
    /// It has more than 1,048,576 bytes.
    #[error("the input has more than 1,048,576 bytes")]
    TooLong,
    /// No line is `%%`.
    #[error("no line of the input is `%%`")]
    NoMarker,
    /// What stands after the line `%%` isn't UTF-8.
    #[error("what stands after the line `%%` is not UTF-8")]
    NotUtf8,
    /// A read failed, or it was out of memory. It may be told in place of any other.
    #[error("the input could not be read, or there was no memory for it")]
    Read,
}

impl InputFault {
    /// The words by which the fault is told.
    pub fn name(self) -> &'static str
        ensures { result.now ≡ name_of self }
    {
        match self {
            InputFault::TooLong => "too long",
            InputFault::NoMarker => "no %% line",
            InputFault::NotUtf8 => "not UTF-8",
            InputFault::Read => "read",
        }
    }
}
