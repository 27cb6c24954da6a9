//! The words of the server.
ghost use Rattle.std.specs.Prelude.{◌≤◌, IfSome};

use clap::{Arg, ArgAction, ArgMatches, Command as App};
use std::alloc::{AllocError, Global};
use wire_core::number_of_word;

/// The highest port.
const MAX_PORT: u32 = 65_535;

/// What the server is asked for.
#[derive(Clone, Copy)]
pub struct Asked<'w> {
    /// The path of the file of tables.
    pub tables: &'w str,
    /// The path of the settings file.
    pub settings: &'w str,
    /// The port on which it listens, from 1.
    pub port: u16,
    /// How many messages it answers before it ends, from 1; none, where it is to go on.
    pub count: Option<u32>,
    /// Whether it prints a line for each message.
    pub log: bool,
    /// Where it puts copies of its tables.
    pub copies: Option<&'w str>,
    /// Whether it stands behind a proxy, which tells where messages come from.
    pub proxied: bool,
    /// Whether browsers come by HTTPS, which the proxy speaks.
    pub https: bool,
}

/// What words ask of the server: `--db FILE --settings FILE --port N` and maybe `--count K`,
/// `--copies FILE`, `--log`, `--proxy` and `--https`, in any order. None where they are other words, an
/// option stands there twice, a number isn't 1 to 10 digits, or is 0 or too great.
pub fn asked_of<'w>(alloc: Global, words: &'w [String]) -> Option<Asked<'w>> {
    let Ok(command) = command_line(alloc) else {
        return None;
    };
    match command.try_get_matches_from(words) {
        Ok(matches) => asked_by(&matches),
        Err(_) => None,
    }
}

/// What the matches ask for.
fn asked_by<'w>(matches: &ArgMatches<'w>) -> Option<Asked<'w>> {
    let port = number_up_to(MAX_PORT, matches.get_str("port")?)?;
    Some(Asked {
        tables: matches.get_str("db")?,
        settings: matches.get_str("settings")?,
        port: port as u16,
        count: count_of(matches.get_str("count"))?,
        copies: matches.get_str("copies"),
        log: matches.get_flag("log"),
        proxied: matches.get_flag("proxy"),
        https: matches.get_flag("https"),
    })
}

/// The count of the word, if there is one; none of all, where it is no count.
fn count_of(word: Option<&str>) -> Option<Option<u32>> {
    match word {
        Some(word) => Some(Some(number_up_to(u32::MAX, word)?)),
        None => Some(None),
    }
}

/// The number of a word, if it is from 1 to the most.
fn number_up_to(most: u32, word: &str) -> Option<u32>
    ensures { IfSome result (λ n. (1 ≤ n) × (n ≤ most)) }
{
    match number_of_word(word) {
        Some(number) if 1 <= number && number <= most => Some(number),
        _ => None,
    }
}

/// The command line that `clap` is given.
fn command_line<'w>(alloc: Global) -> Result<App<'w>, AllocError> {
    let command = App::new(alloc, "desk_web")
        .no_binary_name(true)
        .disable_help_flag(true);
    let command = command.arg(wanted(alloc, "db"))?;
    let command = command.arg(wanted(alloc, "settings"))?;
    let command = command.arg(wanted(alloc, "port"))?;
    let command = command.arg(option(alloc, "count"))?;
    let command = command.arg(option(alloc, "copies"))?;
    let command = command.arg(flag(alloc, "log"))?;
    let command = command.arg(flag(alloc, "proxy"))?;
    command.arg(flag(alloc, "https"))
}

/// An option without a value.
fn flag<'w>(alloc: Global, id: &'w str) -> Arg<'w> {
    Arg::new(alloc, id).long(id).action(ArgAction::SetTrue)
}

/// An option that has to be there, with its value.
fn wanted<'w>(alloc: Global, id: &'w str) -> Arg<'w> {
    option(alloc, id).required(true)
}

/// An option with its value.
fn option<'w>(alloc: Global, id: &'w str) -> Arg<'w> {
    Arg::new(alloc, id).long(id).action(ArgAction::Set)
}
