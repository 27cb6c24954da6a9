//! Why a message asks for nothing of the pages.

ghost use Rattle.std.specs.Prelude.{◌≡◌, ◌≤◌, ◌<◌};
ghost use Rattle.page_routes.specs.Faults as faults;

use std::alloc::AllocError;
use thiserror::Error;

/// Why a message asks for nothing of the pages. They are looked for in this order, but for
/// `NoMemory`, which may stand in place of any answer.
#[derive(Clone, Copy, Debug, PartialEq, Eq, Error)]
pub enum PageFault {
    /// The path is no place of the pages.
    #[error("there is no such page")]
    NoRoute,
    /// The place doesn't have this method. It has GET, and maybe POST.
    #[error("this page can't be asked with that method")]
    BadMethod { posts: bool },
    /// A post comes from another site's page.
    #[error("another site asked for this")]
    OtherSite,
    /// The body isn't that of a form, or signing in sends other fields than its form.
    #[error("what was sent isn't what this form sends")]
    BadBody,
    /// Memory was refused.
    #[error("out of memory")]
    NoMemory,
}

impl PageFault {
    /// The number by which the fault is told.
    pub fn number(self) -> u8
        ensures { result ≡ faults.number_of self }
    {
        match self {
            PageFault::NoRoute => 1,
            PageFault::BadMethod { .. } => 2,
            PageFault::BadBody => 4,
            PageFault::NoMemory => 5,
            PageFault::OtherSite => 6,
        }
    }

    /// The name by which the fault is told.
    pub fn name(self) -> &'static str
        ensures { result.now ≡ faults.name_of self }
    {
        match self {
            PageFault::NoRoute => "NoRoute",
            PageFault::BadMethod { .. } => "BadMethod",
            PageFault::BadBody => "BadBody",
            PageFault::NoMemory => "NoMemory",
            PageFault::OtherSite => "OtherSite",
        }
    }

    /// The code of a reply that tells the fault, of three digits.
    pub fn status(self) -> u16
        ensures is { result ≡ faults.status_of self }
        ensures code { (100 ≤ result) × (result < 1000) }
    {
        match self {
            PageFault::NoRoute => 404,
            PageFault::BadMethod { .. } => 405,
            PageFault::BadBody => 400,
            PageFault::NoMemory => 503,
            PageFault::OtherSite => 403,
        }
    }
}

impl From<AllocError> for PageFault {
    ghost use Rattle.std.specs.Prelude.{◌≡◌};
    ghost use Rattle.page_routes.specs.declared.fault.PageFault.TheVariants.{NoMemory};

    ghost from_gives = { λ _ fault. fault ≡ NoMemory };

    fn from(_refused: AllocError) -> PageFault {
        PageFault::NoMemory
    }
}
