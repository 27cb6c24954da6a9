//! How calendars count open minutes, and how many spans they read.

use case_text::{CaseFault, Words};
use hours_core::{Calendar, Minute, Probes};

/// Adds open minutes from each of so many minutes on, a day's round and round: the sum of the ends.
/// So one line measures many calls.
pub(crate) fn ends(calendar: &Calendar, words: Words<'_>) -> Result<u64, CaseFault> {
    let mut words = words;
    let (from, minutes) = (words.count()?, words.count()?);
    let mut sum = 0u64;
    for call in 0..words.count()? {
        if let Some(from) = Minute::new(from.saturating_add(call % 1440)) {
            if let Some(end) = calendar.add_open(from, minutes) {
                sum = sum.wrapping_add(u64::from(end.get()));
            }
        }
    }
    Ok(sum)
}

/// The spans that `first_open_counted` and `add_open_counted` of 60 read at the minute.
fn probes_at(calendar: &Calendar, minute: Minute) -> (u32, u32) {
    let mut first = Probes::new();
    let mut add = Probes::new();
    let _ = calendar.first_open_counted(minute, &mut first);
    let _ = calendar.add_open_counted(minute, 60, &mut add);
    (first.count(), add.count())
}

/// Whether at each minute from the first to before the second both calls read a span, the first at
/// most as many as the third word says and the other at most twice as many.
pub(crate) fn bounded(calendar: &Calendar, words: Words<'_>) -> Result<bool, CaseFault> {
    let mut words = words;
    let (from, to, most) = (words.count()?, words.count()?, words.count()?);
    let mut holds = true;
    for number in from..to {
        if let Some(minute) = Minute::new(number) {
            let (first, add) = probes_at(calendar, minute);
            holds = holds && 0 < first && first <= most && 0 < add && add <= most.saturating_mul(2);
        }
    }
    Ok(holds)
}

/// Goes over the minute of the day that the first word says, from one day to before another: at how
/// many of them a span begins, and the most spans that each call reads at one of these.
pub(crate) fn greatest(
    calendar: &Calendar,
    words: Words<'_>,
) -> Result<(u32, u32, u32), CaseFault> {
    let mut words = words;
    let (opening, from, to) = (words.count()?, words.count()?, words.count()?);
    let mut starts = 0u32;
    let mut most = (0, 0);
    for day in from..to {
        let number = day.saturating_mul(1440).saturating_add(opening);
        if let Some(minute) = start_of_span(calendar, number) {
            let (first, add) = probes_at(calendar, minute);
            starts = starts.saturating_add(1);
            most = (first.max(most.0), add.max(most.1));
        }
    }
    Ok((starts, most.0, most.1))
}

/// The minute where a span begins with it.
fn start_of_span(calendar: &Calendar, number: u32) -> Option<Minute> {
    let before = Minute::new(number.saturating_sub(1))?;
    let minute = Minute::new(number)?;
    if calendar.is_open(minute) && !calendar.is_open(before) {
        Some(minute)
    } else {
        None
    }
}
