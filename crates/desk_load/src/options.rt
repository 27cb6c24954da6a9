//! The words of the program.

use clap::{Arg, ArgAction, ArgMatches, Command as App};
use load_core::Plan;
use std::alloc::{AllocError, Global};

/// What the program is asked for.
#[derive(Clone, Copy)]
pub struct Asked<'w> {
    /// The path of the file of tables.
    pub tables: &'w str,
    /// The path of the settings file.
    pub settings: &'w str,
    /// What is to be done with them.
    pub task: Task,
}

/// What is to be done with settings and tables.
#[derive(Clone, Copy)]
pub enum Task {
    /// Lines are loaded: which are answered, which answers are printed, and how many commands that
    /// are done are one transaction.
    Load(Plan, u64),
    /// What is wrong first is told.
    Check,
}

/// How many commands may be one transaction.
const MOST_TOGETHER: u64 = 100_000;

/// What words ask of the program: `--db FILE --settings FILE`, and then `--check`, or maybe `--all`,
/// `--stop`, `--from N` and `--commit N`, in any order. None where they are other words, an option
/// stands there twice, or N isn't written in digits alone as a number from 1 to the greatest u64, or
/// with `--commit` to 100,000.
pub fn asked_of<'w>(alloc: Global, words: &'w [String]) -> Option<Asked<'w>> {
    let Ok(command) = command_line(alloc) else {
        return None;
    };
    match command.try_get_matches_from(words) {
        Ok(matches) => asked_by(&matches),
        Err(_) => None,
    }
}

/// What the matches ask for.
fn asked_by<'w>(matches: &ArgMatches<'w>) -> Option<Asked<'w>> {
    Some(Asked {
        tables: matches.get_str("db")?,
        settings: matches.get_str("settings")?,
        task: task_by(matches)?,
    })
}

/// The task of the matches: a check has no word of a load beside it.
fn task_by(matches: &ArgMatches<'_>) -> Option<Task> {
    let (from, commit) = (matches.get_str("from"), matches.get_str("commit"));
    let plan = Plan {
        passed: number_by(from, u64::MAX)?.checked_sub(1)?,
        all: matches.get_flag("all"),
        stop: matches.get_flag("stop"),
    };
    if !matches.get_flag("check") {
        Some(Task::Load(plan, number_by(commit, MOST_TOGETHER)?))
    } else if from.is_none() && commit.is_none() && !plan.all && !plan.stop {
        Some(Task::Check)
    } else {
        None
    }
}

/// The number of a word, if it has one from 1 to the greatest; 1 where there is no word.
fn number_by(word: Option<&str>, greatest: u64) -> Option<u64> {
    let Some(word) = word else {
        return Some(1);
    };
    let number = number_of(word)?;
    if (1..=greatest).contains(&number) {
        Some(number)
    } else {
        None
    }
}

/// The number that a word of digits alone writes, if it is at most the greatest u64.
fn number_of(word: &str) -> Option<u64> {
    if word.as_bytes().iter().all(|byte| byte.is_ascii_digit()) {
        word.parse::<u64>().ok()
    } else {
        None
    }
}

/// The command line that `clap` is given.
fn command_line<'w>(alloc: Global) -> Result<App<'w>, AllocError> {
    let command = App::new(alloc, "desk_load")
        .no_binary_name(true)
        .disable_help_flag(true);
    let command = command.arg(option(alloc, "db").required(true))?;
    let command = command.arg(option(alloc, "settings").required(true))?;
    let command = command.arg(option(alloc, "from"))?;
    let command = command.arg(option(alloc, "commit"))?;
    let command = command.arg(flag(alloc, "all"))?;
    let command = command.arg(flag(alloc, "check"))?;
    command.arg(flag(alloc, "stop"))
}

/// An option with its value.
fn option<'w>(alloc: Global, id: &'w str) -> Arg<'w> {
    Arg::new(alloc, id).long(id).action(ArgAction::Set)
}

/// An option without a value.
fn flag<'w>(alloc: Global, id: &'w str) -> Arg<'w> {
    Arg::new(alloc, id).long(id).action(ArgAction::SetTrue)
}
