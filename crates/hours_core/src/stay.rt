//! Times in a status.

ghost use Rattle.std.specs.Prelude.{◌≡◌, ◌≤◌, unwrap_or};
ghost use Rattle.hours_core.specs.Moment.{end_minute};

use crate::moment::{END, Minute};
use text_core::Text;

/// A time in a status.
#[derive(Clone, Debug, Drop)]
pub struct Stay {
    pub status: Text,
    /// When it began.
    pub from: Minute,
    /// When it ended, or `None` while it lasts. One that ends where it begins, or before, has no
    /// minutes.
    pub until: Option<Minute>,
}

impl Stay {
    /// When it ended, which is `END` while it lasts.
    pub(crate) fn end(&self) -> u32
        ensures end { result ≡ unwrap_or self.now.until end_minute }
        ensures to { result ≤ end_minute }
    {
        match self.until {
            Some(end) => end.get(),
            None => END,
        }
    }
}
