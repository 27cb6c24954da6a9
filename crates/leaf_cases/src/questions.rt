//! Questions to settings that were read, and to people.

ghost use Rattle.std.specs.Prelude.{◌<◌};

use case_text::Words;
use hours_core::{Level, Limit, Minute};
use rights_core::{People, Roles, right};
use settings_core::Settings;
use std::alloc::{AllocError, Global};

/// What stands where there is nothing to tell.
const NONE: &str = "-";

/// Answers a question to settings:
///
/// | Question | Answer |
/// |---|---|
/// | `token TOKEN` | the person whose it is |
/// | `lifecycle NAME` | the status of a request that is created without one |
/// | `move LIFECYCLE FROM TO` | whether it is allowed, and the right that it asks for |
/// | `open CALENDAR MINUTE` | whether it is open |
/// | `level NAME` | its calendar, when the time begins, what it ignores, and its limits |
/// | `limits` | how many requests and entries there may be |
pub(crate) fn ask(
    alloc: Global,
    out: &mut String,
    settings: &Settings,
    question: &str,
) -> Result<(), AllocError> {
    let mut words = Words::of(question);
    match words.next() {
        "token" => {
            let person = settings.person_of_token(words.rest).unwrap_or(NONE);
            writeln!(out, "{question}: {person}")
        }
        "lifecycle" => match settings.lifecycle(words.rest) {
            Some(lifecycle) => writeln!(out, "{question}: {}", lifecycle.on_create()),
            None => writeln!(out, "{question}: {NONE}"),
        },
        "move" => moves(out, settings, question, words),
        "open" => open(out, settings, question, words),
        "level" => match settings.level(words.rest) {
            Some(level) => tell_level(out, question, level),
            None => writeln!(out, "{question}: {NONE}"),
        },
        "limits" => {
            let (requests, entries) = (settings.max_requests(), settings.max_entries());
            writeln!(out, "{question}: {requests} {entries}")
        }
        _ => ask_people(alloc, out, settings.people(), question),
    }
}

fn moves(
    out: &mut String,
    settings: &Settings,
    question: &str,
    words: Words<'_>,
) -> Result<(), AllocError> {
    let mut words = words;
    let (name, from) = (words.next(), words.next());
    match settings.lifecycle(name) {
        Some(lifecycle) => {
            let may_move = lifecycle.may_move(from, words.rest);
            let right = lifecycle.right_for(from, words.rest);
            writeln!(out, "{question}: {may_move} {right}")
        }
        None => writeln!(out, "{question}: {NONE}"),
    }
}

fn open(
    out: &mut String,
    settings: &Settings,
    question: &str,
    words: Words<'_>,
) -> Result<(), AllocError> {
    let mut words = words;
    let name = words.next();
    let minute = Minute::new(words.rest.parse().unwrap_or(0));
    match (settings.calendar(name), minute) {
        (Some(calendar), Some(minute)) => {
            writeln!(out, "{question}: {}", calendar.is_open(minute))
        }
        _ => writeln!(out, "{question}: {NONE}"),
    }
}

fn tell_level(out: &mut String, question: &str, level: &Level) -> Result<(), AllocError> {
    let calendar = level.calendar.as_str();
    writeln!(out, "{question}: {calendar} {}", level.start_immediately)?;
    for status in level.ignore.as_slice() {
        writeln!(out, "  ignore: {}", status.as_str())?;
    }
    tell_limit(out, "response", level.response)?;
    tell_limit(out, "keep_in_loop", level.keep_in_loop)?;
    tell_limit(out, "resolve", level.resolve)
}

fn tell_limit(out: &mut String, name: &str, limit: Option<Limit>) -> Result<(), AllocError> {
    match limit {
        Some(Limit::RealMinutes(minutes)) => writeln!(out, "  {name}: {minutes} real"),
        Some(Limit::BusinessMinutes(minutes)) => writeln!(out, "  {name}: {minutes} business"),
        None => Ok(()),
    }
}

/// Answers a question to people, and passes over what is none:
///
/// | Question | Answer |
/// |---|---|
/// | `knows NAME` | whether it is a person's |
/// | `member PERSON GROUP` | whether the person is in the group |
/// | `holds PERSON RIGHT QUEUE [ROLE]` | whether the person holds the right |
/// | `held PERSONS COUNT` | how many of so many questions about rights have a yes |
pub(crate) fn ask_people(
    alloc: Global,
    out: &mut String,
    people: &People,
    question: &str,
) -> Result<(), AllocError> {
    let mut words = Words::of(question);
    match words.next() {
        "knows" => writeln!(out, "{question}: {}", people.knows(words.rest)),
        "member" => {
            let person = words.next();
            writeln!(out, "{question}: {}", people.member(person, words.rest))
        }
        "holds" => {
            let (person, right, queue) = (words.next(), words.next(), words.next());
            let holds = people.holds(person, right, queue, roles(words.rest));
            writeln!(out, "{question}: {holds}")
        }
        "held" => writeln!(out, "{question}: {}", held(alloc, people, words)?),
        _ => Ok(()),
    }
}

/// The roles of one, of all but the requestor's, or of none.
fn roles(word: &str) -> Roles {
    Roles {
        owner: word == "owner" || word == "others",
        requestor: word == "requestor",
        cc: word == "cc" || word == "others",
        admin_cc: word == "admincc" || word == "others",
    }
}

/// Of so many questions about so many persons `p0`, `p1` and so on, the standard rights and the
/// queues `q0` to `q49`, how many are answered with yes. So one line measures many calls.
fn held(alloc: Global, people: &People, words: Words<'_>) -> Result<u32, AllocError> {
    let mut words = words;
    let persons = words.next().parse::<u32>().unwrap_or(0).max(1);
    let mut held = 0_u32;
    for number in 0..words.next().parse::<u32>().unwrap_or(0) {
        if holds_in_turn(alloc, people, persons, number)? {
            held = held.saturating_add(1);
        }
    }
    Ok(held)
}

fn holds_in_turn(
    alloc: Global,
    people: &People,
    persons: u32,
    number: u32,
) -> Result<bool, AllocError>
    requires { 0 < persons }
{
    let person = format!(in alloc; "p{}", number % persons)?;
    let queue = format!(in alloc; "q{}", number / 7 % 50)?;
    let name = right::STANDARD[(number / 3 % 16) as usize];
    Ok(people.holds(person.as_str(), name, queue.as_str(), Roles::none()))
}
