//! Rules of local time, as systems write them: one line such as `CET-1CEST,M3.5.0,M10.5.0/3`
//! states the offset at every moment.
//!
//! A minute is a number of minutes since 1970-01-01 00:00 UTC, and has the offset of its first
//! second.
//!
//! `Rule::read` has a rule exactly where `jiff` reads one, and its offsets are those of `jiff`'s
//! zone. `Rule::offset_at` is the offset of a minute. Up to `Rule::stretch_end` it stays: to the next
//! transition, or the year's end in UTC, where it may change without one.
#![tactic(auto)]

mod rule;
mod years;

pub use rule::Rule;
