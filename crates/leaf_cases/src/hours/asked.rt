//! Calls of calendars and moments, a line each.

use crate::hours::limits::{due, dues};
use crate::hours::parts::Parts;
use crate::hours::spans::{bounded, ends, greatest};
use crate::words::moment;
use case_text::{CaseFault, Words, str_of};
use hours_core::{Calendar, Minute, Zone, date_of, minute_text};
use std::alloc::Global;

/// Writes the line and the answer of the call that it spells.
pub(crate) fn answer(
    alloc: Global,
    out: &mut String,
    parts: &Parts,
    calendar: Option<&Calendar>,
    line: &str,
) -> Result<(), CaseFault> {
    write!(out, "{line}:")?;
    let mut words = Words::of(line);
    match words.next() {
        "minute" => show(out, Minute::new(words.count()?))?,
        "in_order" => {
            let (earlier, later) = (moment(words.next())?, moment(words.next())?);
            write!(out, " {}", earlier < later)?;
        }
        "date" => {
            let (year, month, day) = date_of(moment(words.next())?);
            write!(out, " {year} {month} {day}")?;
        }
        "text" => {
            let text = minute_text(moment(words.next())?);
            write!(out, " {}", str_of(text.as_slice()))?;
        }
        "by_rule" => by_rule(alloc, out, words)?,
        call => match calendar {
            Some(calendar) => asked(alloc, out, parts, calendar, call, words)?,
            None => return Err(CaseFault::BadLine),
        },
    }
    writeln!(out)?;
    Ok(())
}

/// Writes the answer of a call on a calendar.
fn asked(
    alloc: Global,
    out: &mut String,
    parts: &Parts,
    calendar: &Calendar,
    call: &str,
    words: Words<'_>,
) -> Result<(), CaseFault> {
    let mut words = words;
    match call {
        "is_open" => write!(out, " {}", calendar.is_open(moment(words.next())?))?,
        "first_open" => show(out, calendar.first_open(moment(words.next())?))?,
        "add_open" => show(
            out,
            calendar.add_open(moment(words.next())?, words.count()?),
        )?,
        "due_at_once" => show(out, due(alloc, parts, calendar, true, words)?)?,
        "due" => show(out, due(alloc, parts, calendar, false, words)?)?,
        "dues" => write!(out, " {}", dues(alloc, parts, calendar, words)?)?,
        "ends" => write!(out, " {}", ends(calendar, words)?)?,
        "bounded" => write!(out, " {}", bounded(calendar, words)?)?,
        "greatest" => {
            let (starts, first, add) = greatest(calendar, words)?;
            write!(out, " {starts} {first} {add}")?;
        }
        _ => return Err(CaseFault::BadLine),
    }
    Ok(())
}

/// Writes the number of the minute, or `-`.
fn show(out: &mut String, minute: Option<Minute>) -> Result<(), CaseFault> {
    match minute {
        Some(minute) => write!(out, " {}", minute.get())?,
        None => write!(out, " -")?,
    }
    Ok(())
}

/// Writes the offsets of a rule's zone at minutes, or its fault.
fn by_rule(alloc: Global, out: &mut String, words: Words<'_>) -> Result<(), CaseFault> {
    let mut words = words;
    let years = (words.whole()?, words.whole()?);
    match Zone::by_rule(alloc, words.next(), years) {
        Ok(zone) => show_offsets(out, &zone, words.rest),
        Err(fault) => {
            write!(out, " {} {}", fault.number(), fault.name())?;
            Ok(())
        }
    }
}

/// Writes the zone's offset at each minute.
fn show_offsets(out: &mut String, zone: &Zone, minutes: &str) -> Result<(), CaseFault> {
    for minute in minutes.split(' ') {
        if !minute.is_empty() {
            write!(out, " {}", zone.offset_at(moment(minute)?))?;
        }
    }
    Ok(())
}
