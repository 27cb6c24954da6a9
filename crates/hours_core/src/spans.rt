//! Runs of open minutes in order, and reads of them that are counted.
//!
//! The fields are private, so a span is read only by `CountedSpans::read`, which counts.

ghost use Rattle.std.specs.Prelude.{◌≡◌, ◌<◌, ◌≤◌, ℕ, ◌+◌, ◌||◌, []};
ghost use Rattle.std.specs.Prelude.{length, min, OnOk, slice_index_or};
ghost use Rattle.hours_core.specs.Counted.{HaveOneCount, reads_of, spans_in};
ghost use Rattle.hours_core.specs.Hours.{is_within};
ghost use Rattle.hours_core.specs.Moment.{first_minute, end_minute};
ghost use Rattle.hours_core.specs.Spans.{is_held, length_of, AreSpans, last_end};

use std::alloc::{AllocError, Global};
use std::marker::Model;

/// A run of open minutes, from its start to before its end, and the number of open minutes before
/// it.
#[derive(Clone, Copy)]
pub struct Span {
    pub start: u32,
    pub end: u32,
    pub before: u32,
}

impl Span {
    /// How many minutes the span has.
    pub fn minutes(self) -> u32
        ensures { result ≡ length_of self }
    {
        self.end.saturating_sub(self.start)
    }
}

/// The runs of open minutes in order, with at least a minute between two of them.
#[derive(Drop)]
pub struct Spans {
    items: Vec<Span>,
}

impl Model for Spans {
    ghost use Rattle.std.specs.Prelude.{List};
    ghost use Rattle.hours_core.specs.Moment.{first_minute};
    ghost use Rattle.hours_core.specs.Spans.{AreSpans};
    ghost use Rattle.hours_core.specs.declared.spans.Span.{Span};

    ghost Value = { List Span };

    ghost view = { λ s. s.items.items };

    ghost invariant = { λ s. AreSpans first_minute 0 s.items.items };
}

/// How many spans were read, up to the greatest `u32`.
#[derive(Drop)]
pub struct Probes {
    count: u32,
}

impl Model for Probes {
    ghost use Rattle.std.specs.Prelude.{ℕ};

    ghost Value = { ℕ };

    ghost view = { λ p. p.count };
}

impl Probes {
    /// No span was read.
    pub fn new() -> Probes
        ensures { result ≡ 0 }
    {
        Probes { count: 0 }
    }

    /// How many spans were read, up to the greatest `u32`.
    pub fn count(&self) -> u32
        ensures { result ≡ self.now }
    {
        self.count
    }

    /// One span more was read.
    fn add_one(&mut self)
        ensures counted { self.new ≡ min (self.old + 1) u32.MAX }
        ensures kept { self.old ≤ self.new }
    {
        self.count = self.count.saturating_add(1);
    }
}

/// Spans that are lent with the count of their reads. What is handed these, and neither, can read
/// no span without counting it.
#[derive(Drop)]
pub struct CountedSpans<'a> {
    spans: &'a Spans,
    probes: &'a mut Probes,
}

impl<'a> CountedSpans<'a> {
    /// How many spans there are.
    pub fn len(&self) -> usize
        ensures number { result ≡ length (spans_in self.now) }
        ensures spans { AreSpans first_minute 0 (spans_in self.now) }
    {
        self.spans.len()
    }

    /// The span at the index, which counts as one more.
    pub fn read(&mut self, index: usize) -> Span
        requires { index < length (spans_in self.old) }
        ensures one { HaveOneCount self.new self.old }
        ensures same { spans_in self.new ≡ spans_in self.old }
        ensures span { (other : Span)
            → result ≡ slice_index_or (spans_in self.old) index other }
        ensures counted { reads_of self.new ≡ min (reads_of self.old + 1) u32.MAX }
        ensures kept { reads_of self.old ≤ reads_of self.new }
    {
        self.probes.add_one();
        self.spans.at(index)
    }
}

impl Spans {
    /// No span.
    pub fn new(alloc: Global) -> Spans
        ensures { result ≡ [] }
    {
        Spans {
            items: Vec::new(alloc),
        }
    }

    /// How many spans there are.
    pub fn len(&self) -> usize
        ensures number { result ≡ length self.now }
        ensures spans { AreSpans first_minute 0 self.now }
    {
        self.items.len()
    }

    /// The spans for reading, with the count that each read adds one to.
    pub fn counted<'a>(&'a self, probes: &'a mut Probes) -> CountedSpans<'a>
        ensures one { result.probes.ghost_name ≡ probes.entry.ghost_name }
        ensures spans { spans_in result ≡ self.now }
        ensures count { reads_of result ≡ probes.old }
    {
        CountedSpans {
            spans: self,
            probes,
        }
    }

    fn at(&self, index: usize) -> Span
        requires { index < length self.now }
        ensures { (other : Span) → result ≡ slice_index_or self.now index other }
    {
        self.items[index]
    }

    /// Adds the minutes from `start` to before `end`, which come after all others or touch the last
    /// ones.
    pub fn append(&mut self, start: u32, end: u32) -> Result<(), AllocError>
        requires from { first_minute ≤ start }
        requires after { last_end first_minute self.old ≤ start }
        requires some { start < end }
        requires to { end ≤ end_minute }
        ensures held { OnOk result
            ((m : ℕ) → is_held self.new m ≡ (is_held self.old m || is_within m (start, end))) }
        ensures end { OnOk result (last_end first_minute self.new ≡ end) }
    {
        let span = match self.items.pop() {
            Some(last) if last.end == start => Span { end, ..last },
            Some(last) => {
                self.items.push(last)?;
                let before = last.before + last.minutes();
                Span { start, end, before }
            }
            None => Span {
                start,
                end,
                before: 0,
            },
        };
        self.items.push(span)?;
        Ok(())
    }

    /// Gives back the memory that no span needs.
    pub fn shrink(&mut self)
        ensures same { self.new ≡ self.old }
        ensures spans { AreSpans first_minute 0 self.new }
    {
        self.items.shrink_to_fit();
    }
}
