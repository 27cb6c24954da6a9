//! Why commands are refused.

ghost use Rattle.std.specs.Prelude.{◌≡◌};
ghost use Rattle.desk_model.specs.Refusals.{number_of, name_of};
ghost use Rattle.desk_model.specs.declared.refusal.Refusal.TheVariants.{Unavailable};

use std::alloc::{AllocError, AllocFailed};
use text_core::RightName;
use thiserror::Error;

/// Why a command is refused. The desk is then as it was.
#[derive(Clone, Debug, PartialEq, Drop, Error)]
pub enum Refusal {
    /// The caller is no person of the settings.
    #[error("the caller is no person of the settings")]
    UnknownCaller,
    /// The moment is before the year 2000 or after 2099.
    #[error("the moment is before 2000-01-01 00:00 or after 2099-12-31 23:59")]
    BadMoment,
    /// A new queue's name, a subject or a text isn't of its form.
    #[error("a name, a subject or a text has a length or characters that it can't have")]
    BadText,
    /// The queue or the request isn't there, or is hidden from the caller.
    #[error("the queue or the request isn't there, or is hidden from the caller")]
    NotFound,
    /// A lifecycle, a level, a person or a status isn't known.
    #[error("a lifecycle, a level, a person or a status isn't known")]
    UnknownName,
    /// This right is lacking: to the caller, or to the person whom `Give` names.
    #[error("the right {right} is lacking", right = .0.as_str())]
    Denied(RightName),
    /// The desk is already so.
    #[error("the desk is so already")]
    NoChange,
    /// The lifecycle has no such move or creation.
    #[error("the lifecycle has no such move, or lets no request begin in that status")]
    NoTransition,
    /// The new status is inactive, and a request that this one depends on isn't.
    #[error("the request depends on another one that is still open")]
    OpenDependency,
    /// Another person owns the request.
    #[error("another person owns the request")]
    Owned,
    /// Nobody owns the request.
    #[error("nobody owns the request")]
    NotOwned,
    /// Another person than the caller owns the request.
    #[error("another person than the caller owns the request")]
    NotOwner,
    /// A queue of that name is there.
    #[error("a queue of that name is there already")]
    Exists,
    /// Both ends of the link are one request.
    #[error("both ends of the link are one request")]
    SelfLink,
    /// There is no room for another queue or request, or for the entries that are to come.
    #[error("there is no room for another queue or request, or for more entries")]
    Full,
    /// Out of memory, or a store refused. It may come in place of any answer, and nothing is
    /// changed.
    #[error("out of memory, or the store refused")]
    Unavailable,
}

impl Refusal {
    /// The refusal's number, from 1 to 16.
    pub fn number(&self) -> u8
        ensures { result ≡ number_of self.now }
    {
        match self {
            Refusal::UnknownCaller => 1,
            Refusal::BadMoment => 2,
            Refusal::BadText => 3,
            Refusal::NotFound => 4,
            Refusal::UnknownName => 5,
            Refusal::Denied(_) => 6,
            Refusal::NoChange => 7,
            Refusal::NoTransition => 8,
            Refusal::OpenDependency => 9,
            Refusal::Owned => 10,
            Refusal::NotOwned => 11,
            Refusal::NotOwner => 12,
            Refusal::Exists => 13,
            Refusal::SelfLink => 14,
            Refusal::Full => 15,
            Refusal::Unavailable => 16,
        }
    }

    /// The refusal's name, without the right of `Denied`.
    pub fn name(&self) -> &'static str
        ensures { result.now ≡ name_of self.now }
    {
        match self {
            Refusal::UnknownCaller => "UnknownCaller",
            Refusal::BadMoment => "BadMoment",
            Refusal::BadText => "BadText",
            Refusal::NotFound => "NotFound",
            Refusal::UnknownName => "UnknownName",
            Refusal::Denied(_) => "Denied",
            Refusal::NoChange => "NoChange",
            Refusal::NoTransition => "NoTransition",
            Refusal::OpenDependency => "OpenDependency",
            Refusal::Owned => "Owned",
            Refusal::NotOwned => "NotOwned",
            Refusal::NotOwner => "NotOwner",
            Refusal::Exists => "Exists",
            Refusal::SelfLink => "SelfLink",
            Refusal::Full => "Full",
            Refusal::Unavailable => "Unavailable",
        }
    }
}

impl From<AllocError> for Refusal {
    ghost from_gives = { λ _ r. r ≡ Unavailable };

    fn from(_error: AllocError) -> Refusal {
        Refusal::Unavailable
    }
}

impl<T: Drop> From<AllocFailed<T>> for Refusal {
    ghost from_gives = { λ _ r. r ≡ Unavailable };

    fn from(_error: AllocFailed<T>) -> Refusal {
        Refusal::Unavailable
    }
}
