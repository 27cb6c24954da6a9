//! How far a load has come, told on the standard error.

use load_core::Progress;
use std::io::IsTerminal;
use std::time::{Clock, Duration};

/// Of how many lines one is told.
const EACH: u64 = 1_000;

/// The last line that stands in the file with all before it, told at each 1,000 lines, on a terminal
/// once a second too, and at the end.
#[derive(Drop)]
pub struct Told<'r> {
    rt: &'r HostRuntime,
    /// Whether the standard error is a terminal.
    is_watched: bool,
    /// The moment at which the load began.
    begun: Duration,
    /// The number of the last line that was answered, or of the last that was passed over.
    line: u64,
    /// The number of the last line that stands in the file with all before it.
    standing: u64,
    /// How many commands that are done are one transaction.
    commit: u64,
    /// How many are missing for the next one.
    left: u64,
    /// How many lines were answered.
    answered: u64,
    /// The second, counted from the beginning, in which it was told last.
    second: u64,
}

impl<'r> Told<'r> {
    /// Nothing was answered yet.
    pub fn new(rt: &'r HostRuntime, passed: u64, commit: u64) -> Told<'r> {
        Told {
            rt,
            is_watched: rt.stderr().is_terminal(),
            begun: now(rt),
            line: passed,
            standing: passed,
            commit,
            left: commit,
            answered: 0,
            second: 0,
        }
    }

    /// Tells the last line that was answered, once all that is done stands in the file.
    pub fn tell_end(&self) {
        self.tell(self.line);
    }

    /// Tells the last line that stands in the file.
    pub fn tell_standing(&self) {
        self.tell(self.standing);
    }

    /// Tells the number of a line, and how many were answered in a second.
    fn tell(&self, line: u64) {
        let millis = now(self.rt).saturating_sub(self.begun).as_millis().max(1);
        let rate = u128::from(self.answered) * 1_000 / millis;
        let _told = eprintln!(self.rt; "line {line}, {rate} lines a second");
    }

    /// Tells it where a second has begun since it was told in time.
    fn tell_in_time(&mut self) {
        let second = now(self.rt).saturating_sub(self.begun).as_secs();
        if second > self.second {
            self.second = second;
            self.tell_standing();
        }
    }

    /// Counts a line. One by which nothing was done stands, if all before it do.
    fn count(&mut self, line: u64, is_done: bool) {
        self.line = line;
        self.answered = self.answered.saturating_add(1);
        if is_done {
            self.left = self.left.saturating_sub(1);
        }
        if self.left == 0 {
            self.left = self.commit;
        }
        if self.left == self.commit {
            self.standing = line;
        }
    }
}

impl<'r> Progress for Told<'r> {
    fn told(&mut self, line: u64, is_done: bool) {
        self.count(line, is_done);
        if line % EACH == 0 {
            self.tell_standing();
        } else if self.is_watched {
            self.tell_in_time();
        }
    }
}

/// The clock's time since 1970, or none of it where it gives none.
fn now(rt: &HostRuntime) -> Duration {
    rt.since_1970().unwrap_or(Duration::ZERO)
}
