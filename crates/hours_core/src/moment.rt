//! Minutes from the year 2000 to the year 2099.

ghost use Rattle.std.specs.Prelude.{◌≡◌, if◌then◌else◌};
ghost use Rattle.hours_core.specs.Limit.{minutes_after};
ghost use Rattle.hours_core.specs.Moment.{is_moment, is_due_moment, IsDueMoment};

use std::marker::Model;

/// The first moment, 2000-01-01 00:00.
pub const START: u32 = 15_778_080;

/// The end of the last moment, 2100-01-01 00:00.
pub const END: u32 = 68_374_080;

/// A minute from `START` to `END`, both included, which contracts see as its number.
#[derive(Clone, Copy, PartialEq, Eq, PartialOrd, Ord, Debug)]
pub struct Minute {
    number: u32,
}

impl Model for Minute {
    ghost use Rattle.std.specs.Prelude.{ℕ};
    ghost use Rattle.hours_core.specs.Moment.{IsDueMoment};

    ghost Value = { ℕ };

    ghost view = { λ m. m.number };

    ghost invariant = { λ m. IsDueMoment m.number };

    ghost inverse = { λ n. record { number = n } };
}

impl Minute {
    /// The minute with this number of minutes since 1970-01-01 00:00 UTC, or `None` where that
    /// isn't from `START` to `END`.
    pub fn new(n: u32) -> Option<Minute>
        ensures { result ≡ (if is_due_moment n then Some n else None) }
    {
        if START <= n && n <= END {
            Some(Minute { number: n })
        } else {
            None
        }
    }

    /// The number of minutes since 1970-01-01 00:00 UTC.
    pub fn get(self) -> u32
        ensures number { result ≡ self }
        ensures range { IsDueMoment result }
    {
        self.number
    }

    /// The minute with this number, for where it is known to be one.
    pub(crate) fn at(n: u32) -> Minute
        requires { IsDueMoment n }
        ensures { result ≡ n }
    {
        Minute { number: n }
    }

    /// Whether something may happen at the minute: at `END` nothing does.
    pub(crate) fn is_moment(self) -> bool
        ensures { result ≡ is_moment self }
    {
        START <= self.get() && self.get() < END
    }

    /// The minute so many minutes later, up to `END`.
    pub(crate) fn after(self, minutes: u32) -> Option<Minute>
        ensures { result ≡ minutes_after minutes self }
    {
        match self.get().checked_add(minutes) {
            Some(number) => Minute::new(number),
            None => None,
        }
    }
}
