//! The parts of a calendar, gathered from the lines of a case.

use crate::words::{moment, texts_of};
use case_text::{CaseFault, Words, whole};
use hours_core::{Calendar, HoursFault, Intervals, Level, Minute, Stay, Zone};
use std::alloc::{AllocError, Global};
use text_core::{Text, Texts};

/// A week without intervals.
const CLOSED: &str = "- - - - - - -";

/// The parts of a calendar, the statuses that a level ignores, and stays.
#[derive(Drop)]
pub(crate) struct Parts {
    first: i64,
    changes: Vec<(i64, i64)>,
    rule: Option<Text>,
    /// The intervals of each of the seven days, from Sunday on.
    week: Vec<Intervals>,
    holidays: Vec<u32>,
    years: (i64, i64),
    ignored: Texts,
    pub(crate) stays: Vec<Stay>,
}

impl Parts {
    /// UTC, no intervals, no holidays, the years that moments reach over, and no stays.
    pub(crate) fn new(alloc: Global) -> Result<Parts, CaseFault> {
        Ok(Parts {
            first: 0,
            changes: Vec::new(alloc),
            rule: None,
            week: week(alloc, CLOSED)?,
            holidays: Vec::new(alloc),
            years: (2000, 2099),
            ignored: Texts::from(Vec::new(alloc)),
            stays: Vec::new(alloc),
        })
    }

    /// Takes a line that gives one of the parts, and tells whether it was one.
    pub(crate) fn take(&mut self, alloc: Global, line: &str) -> Result<bool, CaseFault> {
        let mut words = Words::of(line);
        match words.next() {
            "zone" => self.take_zone(alloc, words)?,
            "rule" => self.rule = Some(Text::new(alloc, words.rest)?),
            "week" => self.week = week(alloc, words.rest)?,
            "holidays" => self.holidays = days(alloc, words.rest)?,
            "ignore" => self.ignored = texts_of(alloc, words.rest)?,
            "stay" => self.take_stay(alloc, words)?,
            "stays" => self.take_stays(alloc, words)?,
            "no_stays" => self.stays = Vec::new(alloc),
            "years" => self.years = (words.whole()?, words.whole()?),
            _ => return Ok(false),
        }
        Ok(true)
    }

    /// Takes the first offset, and changes as `MINUTE:OFFSET`, or `FIRST..END:OFFSET` for one at
    /// each minute.
    fn take_zone(&mut self, alloc: Global, words: Words<'_>) -> Result<(), CaseFault> {
        let mut words = words;
        self.rule = None;
        self.first = words.whole()?;
        self.changes = Vec::new(alloc);
        for change in words.rest.split(' ') {
            if !change.is_empty() {
                self.take_changes(change)?;
            }
        }
        Ok(())
    }

    fn take_changes(&mut self, change: &str) -> Result<(), CaseFault> {
        let (minutes, offset) = change.split_once(':').ok_or(CaseFault::BadLine)?;
        let offset = whole(offset)?;
        let (from, to) = range(minutes)?;
        for minute in from..=to {
            self.changes.push((minute, offset))?;
        }
        Ok(())
    }

    /// Takes a stay, as `STATUS FROM UNTIL`, with `-` for no end.
    fn take_stay(&mut self, alloc: Global, words: Words<'_>) -> Result<(), CaseFault> {
        let mut words = words;
        let status = words.next();
        let from = moment(words.next())?;
        let until = match words.rest {
            "-" => None,
            _ => Some(moment(words.next())?),
        };
        self.put(alloc, status, from, until)
    }

    /// Takes so many stays, each of so many minutes and so many minutes after the one before, as
    /// `NUMBER STATUS FROM STEP MINUTES`.
    fn take_stays(&mut self, alloc: Global, words: Words<'_>) -> Result<(), CaseFault> {
        let mut words = words;
        let (stays, status) = (words.count()?, words.next());
        let mut from = words.whole()?;
        let (step, minutes) = (words.whole()?, words.whole()?);
        for _ in 0..stays {
            let until = minute(from.saturating_add(minutes))?;
            self.put(alloc, status, minute(from)?, Some(until))?;
            from = from.saturating_add(step);
        }
        Ok(())
    }

    fn put(
        &mut self,
        alloc: Global,
        status: &str,
        from: Minute,
        until: Option<Minute>,
    ) -> Result<(), CaseFault> {
        let status = Text::new(alloc, status)?;
        self.stays.push(Stay {
            status,
            from,
            until,
        })?;
        Ok(())
    }

    /// A level that ignores the statuses, and begins at once or with the opening.
    pub(crate) fn level(
        &self,
        alloc: Global,
        start_immediately: bool,
    ) -> Result<Level, AllocError> {
        Ok(Level {
            calendar: Text::new(alloc, "office")?,
            start_immediately,
            response: None,
            keep_in_loop: None,
            resolve: None,
            ignore: self.ignored.clone()?,
        })
    }

    /// The calendar of the parts. Writes how many spans it has, or the fault.
    pub(crate) fn build(
        &self,
        alloc: Global,
        out: &mut String,
    ) -> Result<Option<Calendar>, CaseFault> {
        let week = self.week.as_slice().as_array().ok_or(CaseFault::BadLine)?;
        match self.calendar(alloc, week) {
            Ok(calendar) => {
                writeln!(out, "build: {} spans", calendar.spans())?;
                Ok(Some(calendar))
            }
            Err(fault) => {
                writeln!(out, "build: {} {}", fault.number(), fault.name())?;
                Ok(None)
            }
        }
    }

    fn calendar(&self, alloc: Global, week: &[Intervals; 7]) -> Result<Calendar, HoursFault> {
        let zone = match &self.rule {
            Some(rule) => Zone::by_rule(alloc, rule.as_str(), self.years)?,
            None => Zone::build(alloc, self.first, self.changes.as_slice())?,
        };
        Calendar::build(alloc, zone, week, self.holidays.as_slice(), self.years)
    }
}

/// The moment of this number.
fn minute(number: i64) -> Result<Minute, CaseFault> {
    let number = u32::try_from(number).map_err(|_| CaseFault::BadLine)?;
    Minute::new(number).ok_or(CaseFault::BadLine)
}

/// The first and the last number of `FIRST..END`, or of a number alone.
fn range(word: &str) -> Result<(i64, i64), CaseFault> {
    match word.split_once("..") {
        Some((first, end)) => Ok((whole(first)?, whole(end)?.saturating_sub(1))),
        None => Ok((whole(word)?, whole(word)?)),
    }
}

/// The intervals of each day from Sunday on, as `540-720,780-1080`, or `-` for none.
fn week(alloc: Global, days: &str) -> Result<Vec<Intervals>, CaseFault> {
    let mut week = Vec::new(alloc);
    for day in days.split(' ') {
        week.push(intervals(alloc, day)?)?;
    }
    Ok(week)
}

fn intervals(alloc: Global, day: &str) -> Result<Intervals, CaseFault> {
    let mut intervals = Vec::new(alloc);
    if day != "-" {
        for interval in day.split(',') {
            let (start, end) = interval.split_once('-').ok_or(CaseFault::BadLine)?;
            intervals.push((start.parse::<u16>()?, end.parse::<u16>()?))?;
        }
    }
    Ok(Intervals::from(intervals))
}

/// Days, each as a number or as `FIRST..END`.
fn days(alloc: Global, words: &str) -> Result<Vec<u32>, CaseFault> {
    let mut days = Vec::new(alloc);
    for word in words.split(' ') {
        if !word.is_empty() {
            add_days(&mut days, word)?;
        }
    }
    Ok(days)
}

fn add_days(days: &mut Vec<u32>, word: &str) -> Result<(), CaseFault> {
    let (first, last) = range(word)?;
    for day in first..=last {
        days.push(u32::try_from(day).map_err(|_| CaseFault::BadLine)?)?;
    }
    Ok(())
}
