//! The days on which an office is closed.

ghost use Rattle.std.specs.Prelude.{◌≡◌, ◌==◌, ℕ, IfOk};
ghost use Rattle.std.specs.List.{list_any};

use std::alloc::{AllocError, Global};
use std::marker::Model;

/// Days, as numbers of days since 1970-01-01, which contracts see as a list that doesn't fall.
#[derive(Drop)]
pub struct Holidays {
    days: Vec<u32>,
}

impl Model for Holidays {
    ghost use Rattle.std.specs.Prelude.{List, ℕ};
    ghost use Rattle.std.specs.List.Sorted.{IsNonDecreasing};

    ghost Value = { List ℕ };

    ghost view = { λ h. h.days.items };

    ghost invariant = { λ h. IsNonDecreasing h.days.items };
}

impl Holidays {
    /// The days of the list, which come in any order.
    pub fn new(alloc: Global, days: &[u32]) -> Result<Holidays, AllocError>
        ensures { IfOk result (λ h. (day : ℕ)
            → list_any (λ holiday. holiday == day) h
            ≡ list_any (λ holiday. holiday == day) days.now) }
    {
        let mut days = Vec::from_slice(alloc, days)?;
        days.sort_unstable();
        Ok(Holidays { days })
    }

    /// Whether the day is one of them.
    pub fn has(&self, day: u32) -> bool
        ensures { result ≡ list_any (λ holiday. holiday == day) self.now }
    {
        self.days.binary_search(&day).is_ok()
    }
}
