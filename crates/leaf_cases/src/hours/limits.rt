//! When limits are due.

use crate::hours::parts::Parts;
use crate::words::moment;
use case_text::{CaseFault, Words};
use hours_core::{Calendar, Limit, Minute};
use std::alloc::Global;

/// When a limit is due, of a level that begins at once or with the opening: `FROM real N` or
/// `FROM business N`.
pub(crate) fn due(
    alloc: Global,
    parts: &Parts,
    calendar: &Calendar,
    start_immediately: bool,
    words: Words<'_>,
) -> Result<Option<Minute>, CaseFault> {
    let mut words = words;
    let from = moment(words.next())?;
    let limit = limit(&mut words)?;
    let level = parts.level(alloc, start_immediately)?;
    Ok(level.limit_due(calendar, from, limit, parts.stays.as_slice()))
}

fn limit(words: &mut Words<'_>) -> Result<Limit, CaseFault> {
    match words.next() {
        "real" => Ok(Limit::RealMinutes(words.count()?)),
        "business" => Ok(Limit::BusinessMinutes(words.count()?)),
        _ => Err(CaseFault::BadLine),
    }
}

/// Counts a limit from each of so many minutes on, a day's round and round: the sum of the moments
/// at which it is due. So one line measures many calls.
pub(crate) fn dues(
    alloc: Global,
    parts: &Parts,
    calendar: &Calendar,
    words: Words<'_>,
) -> Result<u64, CaseFault> {
    let mut words = words;
    let from = words.count()?;
    let limit = limit(&mut words)?;
    let level = parts.level(alloc, false)?;
    let mut sum = 0u64;
    for call in 0..words.count()? {
        if let Some(from) = Minute::new(from.saturating_add(call % 1440)) {
            if let Some(due) = level.limit_due(calendar, from, limit, parts.stays.as_slice()) {
                sum = sum.wrapping_add(u64::from(due.get()));
            }
        }
    }
    Ok(sum)
}
