//! What the server has of the system beside its network.

use crate::copies::copy_to;
use std::time::Clock;
use web_core::System;

/// The file of tables, where copies of it are put, if anywhere, and the clock.
#[derive(Clone, Copy)]
pub struct FileAndClock<'w> {
    pub rt: &'w HostRuntime,
    pub tables: &'w str,
    pub place: Option<&'w str>,
    /// How many copies it has made.
    pub made: u64,
    /// The second that it has told last.
    pub second: Option<u64>,
}

impl System for FileAndClock<'_> {
    ghost made = { λ system. system.made };

    ghost told = { λ system. system.second };

    fn copy(&mut self) -> bool {
        let copied = match self.place {
            Some(place) => copy_to(self.rt, self.tables, place).is_some(),
            None => false,
        };
        if copied {
            self.made = self.made.saturating_add(1);
        }
        copied
    }

    fn second(&mut self) -> Option<u64> {
        self.second = match self.rt.since_1970() {
            Ok(since) => Some(since.as_secs()),
            Err(_) => None,
        };
        self.second
    }
}
