//! Why a message asks for no command.

ghost use Rattle.std.specs.Prelude.{◌≡◌};
ghost use Rattle.route_core.specs.Fault.{fault_of, name_of, number_of};

use message_core::Allow;
use std::alloc::AllocError;
use thiserror::Error;

/// Why a message asks for no command. They are looked for in this order.
#[derive(Clone, Copy, Debug, PartialEq, Eq, Error)]
pub enum CommandFault {
    /// The path leads nowhere.
    #[error("the path leads nowhere")]
    NoRoute = 1,
    /// The place has no such method.
    #[error("the path doesn't have this method")]
    BadMethod = 2,
    /// There is no token, or one that the settings don't have.
    #[error("the message has no token of a person")]
    NoToken = 3,
    /// The body is no JSON object, or one whose members don't say what is asked for.
    #[error("the body must be a JSON object with the members that the path asks for")]
    BadBody = 4,
    /// Memory was refused.
    #[error("out of memory")]
    NoMemory = 5,
}

impl CommandFault {
    /// The number by which the fault is told.
    pub fn number(self) -> u8
        ensures { result ≡ number_of self }
    {
        self as u8
    }

    /// The name by which the fault is told.
    pub fn name(self) -> &'static str
        ensures { result.now ≡ name_of self }
    {
        match self {
            CommandFault::NoRoute => "NoRoute",
            CommandFault::BadMethod => "BadMethod",
            CommandFault::NoToken => "NoToken",
            CommandFault::BadBody => "BadBody",
            CommandFault::NoMemory => "NoMemory",
        }
    }
}

impl From<AllocError> for CommandFault {
    ghost use Rattle.std.specs.Prelude.{◌≡◌};
    ghost use Rattle.route_core.specs.declared.fault.CommandFault.TheVariants.{NoMemory};

    ghost from_gives = { λ _ fault. fault ≡ NoMemory };

    fn from(_refused: AllocError) -> CommandFault {
        CommandFault::NoMemory
    }
}

/// Why a message asks for no command, where memory isn't the reason: the methods of its place are
/// told where it has another one.
#[derive(Clone, Copy)]
pub enum Unasked {
    /// The path leads nowhere.
    NoRoute,
    /// The place has these methods, and not that of the message.
    BadMethod(Allow),
    /// There is no token, or one that the settings don't have.
    NoToken,
    /// The body is no JSON object, or one whose members don't say what is asked for.
    BadBody,
}

impl Unasked {
    /// The fault alone, without the methods of the place.
    pub fn fault(self) -> CommandFault
        ensures { result ≡ fault_of self }
    {
        match self {
            Unasked::NoRoute => CommandFault::NoRoute,
            Unasked::BadMethod(_) => CommandFault::BadMethod,
            Unasked::NoToken => CommandFault::NoToken,
            Unasked::BadBody => CommandFault::BadBody,
        }
    }
}
