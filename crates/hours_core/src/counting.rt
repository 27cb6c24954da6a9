//! What a calendar tells: when it is open, when it next opens, and when so many minutes are over.

ghost use Rattle.std.specs.Prelude.{◌≡◌, ◌+◌, ◌*◌, ◌<◌, ◌≤◌, length, IsSome};
ghost use Rattle.hours_core.specs.Calendar.{opens, spans_of};
ghost use Rattle.hours_core.specs.Counting.{first_of, add_of, count, has_passed};
ghost use Rattle.hours_core.specs.Least.{IsLeast};
ghost use Rattle.hours_core.specs.Moment.{end_minute};
ghost use Rattle.hours_core.specs.Probes.{most_probes, at_least};
ghost use Rattle.hours_core.specs.Runs.{AreRuns};

use crate::calendar::Calendar;
use crate::moment::Minute;
use crate::search::{end_of_count, first_held, minutes_between};
use crate::spans::Probes;

impl Calendar {
    /// How many opening spans there are: runs of open minutes that no other open minute touches.
    pub fn spans(&self) -> u32
        ensures number { result ≡ length (spans_of self.now) }
        ensures runs { AreRuns (opens self.now) (spans_of self.now) }
    {
        self.spans.len() as u32
    }

    /// Whether the calendar is open at the minute.
    pub fn is_open(&self, m: Minute) -> bool
        ensures { result ≡ opens self.now m }
    {
        let mut probes = Probes::new();
        let mut spans = self.spans.counted(&mut probes);
        match first_held(&mut spans, m.get()) {
            Some(first) => first == m.get(),
            None => false,
        }
    }

    /// The first open minute from this one on, or `None` where there is none before the end of all
    /// moments.
    pub fn first_open(&self, m: Minute) -> Option<Minute>
        ensures first { result ≡ first_of (opens self.now) m }
        ensures least { IsLeast (opens self.now) m end_minute result }
    {
        self.first_open_counted(m, &mut Probes::new())
    }

    /// The same as `first_open`. For each span that it reads the count of the probes grows by one,
    /// up to the greatest `u32`: by at least one where there is a span, and by at most one more than
    /// the number of binary digits of `spans`.
    pub fn first_open_counted(&self, m: Minute, probes: &mut Probes) -> Option<Minute>
        ensures first { result ≡ first_of (opens self.now) m }
        ensures least { IsLeast (opens self.now) m end_minute result }
        ensures most { probes.new ≤ probes.old + most_probes (length (spans_of self.now)) }
        ensures some { 0 < length (spans_of self.now) → at_least probes.old 1 ≤ probes.new }
        ensures kept { probes.old ≤ probes.new }
    {
        let mut spans = self.spans.counted(probes);
        let first = first_held(&mut spans, m.get())?;
        Some(Minute::at(first))
    }

    /// The first minute before which `n` open minutes have passed from this one on, or `None` where
    /// so many aren't left before the end of all moments.
    pub fn add_open(&self, m: Minute, n: u32) -> Option<Minute>
        ensures end { result ≡ add_of (opens self.now) m n }
        ensures least { IsLeast (has_passed (opens self.now) m n) m (end_minute + 1) result }
    {
        self.add_open_counted(m, n, &mut Probes::new())
    }

    /// The same as `add_open`. For each span that it reads the count of the probes grows by one, up
    /// to the greatest `u32`. Where `n` isn't 0, it grows by at least one where there is a span, and
    /// by at least two where an end is found, since that takes two searches; and by at most twice
    /// what `first_open_counted` adds at most.
    pub fn add_open_counted(&self, m: Minute, n: u32, probes: &mut Probes) -> Option<Minute>
        ensures end { result ≡ add_of (opens self.now) m n }
        ensures least { IsLeast (has_passed (opens self.now) m n) m (end_minute + 1) result }
        ensures most { probes.new ≤ probes.old + 2 * most_probes (length (spans_of self.now)) }
        ensures some { 0 < n → 0 < length (spans_of self.now) → at_least probes.old 1 ≤ probes.new }
        ensures found { 0 < n → IsSome result → at_least probes.old 2 ≤ probes.new }
        ensures kept { probes.old ≤ probes.new }
    {
        let mut spans = self.spans.counted(probes);
        let end = end_of_count(&mut spans, m.get(), n)?;
        Some(Minute::at(end))
    }

    /// How many minutes are open from one to before another.
    pub(crate) fn open_between(&self, a: u32, b: u32) -> u32
        requires { a ≤ b }
        ensures { result ≡ count (opens self.now) a b }
    {
        let mut probes = Probes::new();
        let mut spans = self.spans.counted(&mut probes);
        minutes_between(&mut spans, a, b)
    }
}
