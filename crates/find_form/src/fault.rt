//! Why what was typed is no search.

ghost use Rattle.std.specs.Prelude.{◌≡◌};
ghost use Rattle.find_form.specs.Faults as faults;

use std::alloc::AllocError;

/// Why what was typed is no search. They are looked for in this order, but for `NoMemory`, which
/// may stand in place of any answer.
#[derive(Clone, Copy, Debug, PartialEq, Eq)]
pub enum FindFault {
    /// A field is unknown or stands twice, or isn't written as a form writes it.
    Fields,
    /// What should be a name isn't one.
    Name,
    /// What should be a day isn't one.
    Day,
    /// What was chosen isn't offered.
    Choice,
    /// Both one status and all open or closed ones are asked for.
    Both,
    /// Memory was refused.
    NoMemory,
}

impl FindFault {
    /// What a page says of it.
    pub fn sentence(self) -> &'static str
        ensures { result.now ≡ faults.sentence_of self }
    {
        match self {
            FindFault::Fields => "This address has a field that no search has, or has one twice.",
            FindFault::Name => {
                "A queue, a status or a person is named by 1 to 20 of a to z, 0 to 9, - and _, the first a letter."
            }
            FindFault::Day =>
                "A day is written as 2026-01-31, and is one of the years 2000 to 2099.",
            FindFault::Choice => "What was chosen isn't offered.",
            FindFault::Both => "Choose all that are open, all that are closed, or one status.",
            FindFault::NoMemory => "There was no memory for it.",
        }
    }
}

impl From<AllocError> for FindFault {
    ghost use Rattle.std.specs.Prelude.{◌≡◌};
    ghost use Rattle.find_form.specs.declared.fault.FindFault.TheVariants.{NoMemory};

    ghost from_gives = { λ _ fault. fault ≡ NoMemory };

    fn from(_refused: AllocError) -> FindFault {
        FindFault::NoMemory
    }
}
