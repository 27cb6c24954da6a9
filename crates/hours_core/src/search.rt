//! Runs of minutes that are found by halving.

ghost use Rattle.std.specs.Prelude.{◌≡◌, ◌<◌, ◌≤◌, ◌+◌, ◌*◌, ℕ, false, length, min, MatchOption};
ghost use Rattle.std.specs.Prelude.{IsSome};
ghost use Rattle.std.specs.List.{find};
ghost use Rattle.hours_core.specs.Counted.{HaveOneCount, reads_of, spans_in};
ghost use Rattle.hours_core.specs.Counting.{count, has_passed};
ghost use Rattle.hours_core.specs.Least.{IsLeast};
ghost use Rattle.hours_core.specs.Moment.{first_minute, end_minute};
ghost use Rattle.hours_core.specs.Probes as spec;
ghost use Rattle.hours_core.specs.Spans.{is_held, AreSpans, held_before};

use crate::spans::{CountedSpans, Span};

/// What a search looks for: the first span that reaches it.
#[derive(Clone, Copy)]
enum Mark {
    /// A span that ends after the minute.
    EndsAfter(u32),
    /// A span up to whose end at least so many minutes are open.
    Counts(u64),
}

impl Mark {
    fn is_reached(self, span: Span) -> bool
        ensures { result ≡ spec.reaches self span }
    {
        match self {
            Mark::EndsAfter(minute) => minute < span.end,
            Mark::Counts(minutes) => minutes <= span.before as u64 + span.minutes() as u64,
        }
    }
}

/// The first span that reaches the mark, found by halving.
fn first_reaching(spans: &mut CountedSpans<'_>, mark: Mark) -> Option<Span>
    ensures one { HaveOneCount spans.new spans.old }
    ensures same { spans_in spans.new ≡ spans_in spans.old }
    ensures span { result ≡ find (spec.reaches mark) (spans_in spans.old) }
    ensures spans { AreSpans first_minute 0 (spans_in spans.old) }
    ensures most { reads_of spans.new
        ≤ reads_of spans.old + spec.halvings (length (spans_in spans.old)) }
    ensures some { spec.at_least (reads_of spans.old) (min 1 (length (spans_in spans.old)))
        ≤ reads_of spans.new }
    ensures found { IsSome result → spec.at_least (reads_of spans.old) 1 ≤ reads_of spans.new }
    ensures kept { reads_of spans.old ≤ reads_of spans.new }
{
    let mut low = 0;
    let mut high = spans.len();
    let mut found = None;
    while low < high {
        let middle = low + (high - low) / 2;
        let span = spans.read(middle);
        if mark.is_reached(span) {
            high = middle;
            found = Some(span);
        } else {
            low = middle + 1;
        }
    }
    found
}

/// The first minute from this one on that a span holds.
pub fn first_held(spans: &mut CountedSpans<'_>, m: u32) -> Option<u32>
    ensures one { HaveOneCount spans.new spans.old }
    ensures same { spans_in spans.new ≡ spans_in spans.old }
    ensures least { IsLeast (is_held (spans_in spans.old)) m end_minute result }
    ensures end { (late : ℕ) → end_minute ≤ late → is_held (spans_in spans.old) late ≡ false }
    ensures most { reads_of spans.new
        ≤ reads_of spans.old + spec.halvings (length (spans_in spans.old)) }
    ensures some { spec.at_least (reads_of spans.old) (min 1 (length (spans_in spans.old)))
        ≤ reads_of spans.new }
    ensures kept { reads_of spans.old ≤ reads_of spans.new }
{
    let span = first_reaching(spans, Mark::EndsAfter(m))?;
    Some(span.start.max(m))
}

/// How many minutes before this one the spans hold, or `None` where they hold none from there on.
fn minutes_before(spans: &mut CountedSpans<'_>, m: u32) -> Option<u32>
    ensures one { HaveOneCount spans.new spans.old }
    ensures same { spans_in spans.new ≡ spans_in spans.old }
    ensures passed { MatchOption result
        ((y : ℕ) → m ≤ y
        → held_before (spans_in spans.old) y ≡ held_before (spans_in spans.old) m)
        (λ passed. passed ≡ held_before (spans_in spans.old) m) }
    ensures spans { AreSpans first_minute 0 (spans_in spans.old) }
    ensures most { reads_of spans.new
        ≤ reads_of spans.old + spec.halvings (length (spans_in spans.old)) }
    ensures some { spec.at_least (reads_of spans.old) (min 1 (length (spans_in spans.old)))
        ≤ reads_of spans.new }
    ensures found { IsSome result → spec.at_least (reads_of spans.old) 1 ≤ reads_of spans.new }
    ensures kept { reads_of spans.old ≤ reads_of spans.new }
{
    let span = first_reaching(spans, Mark::EndsAfter(m))?;
    Some(span.before + m.saturating_sub(span.start))
}

/// How many minutes the spans hold.
fn all_minutes(spans: &mut CountedSpans<'_>) -> u32
    ensures one { HaveOneCount spans.new spans.old }
    ensures same { spans_in spans.new ≡ spans_in spans.old }
    ensures all { (m : ℕ) → end_minute ≤ m → result ≡ held_before (spans_in spans.old) m }
    ensures spans { AreSpans first_minute 0 (spans_in spans.old) }
{
    let number = spans.len();
    if number == 0 {
        return 0;
    }
    let last = spans.read(number - 1);
    last.before + last.minutes()
}

/// How many minutes before this one the spans hold.
fn minutes_up_to(spans: &mut CountedSpans<'_>, m: u32) -> u32
    ensures one { HaveOneCount spans.new spans.old }
    ensures same { spans_in spans.new ≡ spans_in spans.old }
    ensures passed { result ≡ held_before (spans_in spans.old) m }
    ensures spans { AreSpans first_minute 0 (spans_in spans.old) }
{
    match minutes_before(spans, m) {
        Some(minutes) => minutes,
        None => all_minutes(spans),
    }
}

/// How many minutes from one to before another the spans hold.
pub fn minutes_between(spans: &mut CountedSpans<'_>, a: u32, b: u32) -> u32
    requires { a ≤ b }
    ensures one { HaveOneCount spans.new spans.old }
    ensures same { spans_in spans.new ≡ spans_in spans.old }
    ensures number { result ≡ count (is_held (spans_in spans.old)) a b }
{
    minutes_up_to(spans, b) - minutes_up_to(spans, a)
}

/// The first minute before which the spans hold `n` minutes from `m` on.
pub fn end_of_count(spans: &mut CountedSpans<'_>, m: u32, n: u32) -> Option<u32>
    requires { m ≤ end_minute }
    ensures one { HaveOneCount spans.new spans.old }
    ensures same { spans_in spans.new ≡ spans_in spans.old }
    ensures least { IsLeast (has_passed (is_held (spans_in spans.old)) m n) m
        (end_minute + 1) result }
    ensures most { reads_of spans.new
        ≤ reads_of spans.old + 2 * spec.halvings (length (spans_in spans.old)) }
    ensures some { 0 < n → spec.at_least (reads_of spans.old) (min 1 (length (spans_in spans.old)))
        ≤ reads_of spans.new }
    ensures found { 0 < n → IsSome result
        → spec.at_least (reads_of spans.old) 2 ≤ reads_of spans.new }
    ensures kept { reads_of spans.old ≤ reads_of spans.new }
{
    if n == 0 {
        return Some(m);
    }
    let end = minutes_before(spans, m)? as u64 + n as u64;
    let span = first_reaching(spans, Mark::Counts(end))?;
    Some(span.start + (end - span.before as u64) as u32)
}
