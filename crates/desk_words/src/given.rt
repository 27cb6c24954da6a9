//! What `clap` makes of words, and the command that they spell.

ghost use Rattle.std.specs.Prelude.{◌≡◌, ◌≢◌, [], Err, Some, None, map, true, string_bytes};
ghost use Rattle.std.specs.Prelude.{IfOk, IfErr};
ghost use Rattle.std.specs.Option.{option_map};
ghost use Rattle.clap.specs.Words as clap;
ghost use Rattle.clap.specs.Words.{all_of, fault_of, first_of};
ghost use Rattle.clap.specs.Words.{is_simple, is_simple_and_free, subcommand_of};
ghost use Rattle.clap.specs.Words.{subcommand_rows_of};
ghost use Rattle.desk_words.specs.Line.{Is, line};
ghost use Rattle.desk_words.specs.Spelling as spelling;
ghost use Rattle.desk_words.specs.Spelling.{given_to};
ghost use Rattle.desk_forms.specs.Table as table;

use crate::fault::WordsFault;
use crate::line::needed_for;
use clap::error::ErrorKind;
use clap::{ArgMatches, Command as App};
use desk_forms::argument_source::{ArgumentSource, command_from};
use desk_forms::number_of_word;
use desk_forms::words::row_of;
use desk_model::Command;
use std::alloc::{AllocError, Global};
use text_core::Texts;

/// The command that the words spell, or `BadWords` where they spell none. Names and texts are
/// taken as they stand.
pub fn command_of_words(alloc: Global, words: &[String]) -> Result<Command, WordsFault>
    ensures ok { IfOk result (λ c. spelling.command_of (map string_bytes words.now) ≡ Some c) }
    ensures bad { result ≡ Err WordsFault.BadWords
        → spelling.command_of (map string_bytes words.now) ≡ None }
    ensures kinds { IfErr result (λ e. e ≢ WordsFault.NoMemory → e ≡ WordsFault.BadWords) }
{
    let matches = matches_of(alloc, words)?;
    let Some((name, given)) = entered(&matches) else {
        return Err(WordsFault::BadWords);
    };
    match command_in(alloc, name, given)? {
        Some(command) => Ok(command),
        None => Err(WordsFault::BadWords),
    }
}

/// The command of a subcommand and of what it was given, where its words spell one.
fn command_in(
    alloc: Global,
    name: &str,
    given: &ArgMatches<'_>,
) -> Result<Option<Command>, AllocError>
    ensures { IfOk result (λ c. c ≡ spelling.command_in (name.now, given_to given.now)) }
{
    match row_of(name) {
        Some(row) => command_from(alloc, row.1, &CommandLineArguments(given)),
        None => Ok(None),
    }
}

/// What the command line makes of the words.
fn matches_of<'a>(alloc: Global, words: &'a [String]) -> Result<ArgMatches<'a>, WordsFault>
    ensures fits { IfOk result (λ _.
        fault_of (line table.words) (map string_bytes words.entry.now) ≡ []) }
    ensures rows { IfOk result (λ m. subcommand_rows_of m
        ≡ subcommand_of (line table.words) (map string_bytes words.entry.now)) }
    ensures bad { result ≡ Err WordsFault.BadWords
        → fault_of (line table.words) (map string_bytes words.entry.now) ≢ [] }
    ensures kinds { IfErr result (λ e. e ≢ WordsFault.NoMemory → e ≡ WordsFault.BadWords) }
{
    let command = needed_for(alloc, words)?;
    parsed(command, words)
}

/// What `clap` makes of the words, for any command.
fn parsed<'a>(command: App<'a>, words: &'a [String]) -> Result<ArgMatches<'a>, WordsFault>
    ensures fits { (a : clap.App) → Is a command.entry → is_simple_and_free a ≡ true
        → IfOk result (λ _. fault_of a (map string_bytes words.entry.now) ≡ []) }
    ensures rows { (a : clap.App) → Is a command.entry → is_simple a ≡ true
        → IfOk result (λ m. subcommand_rows_of m
        ≡ subcommand_of a (map string_bytes words.entry.now)) }
    ensures bad { (a : clap.App) → Is a command.entry → is_simple_and_free a ≡ true
        → result ≡ Err WordsFault.BadWords
        → fault_of a (map string_bytes words.entry.now) ≢ [] }
    ensures kinds { IfErr result (λ e. e ≢ WordsFault.NoMemory → e ≡ WordsFault.BadWords) }
{
    match command.try_get_matches_from(words) {
        Ok(matches) => Ok(matches),
        Err(e) => {
            if e.kind() == ErrorKind::OutOfMemory {
                Err(WordsFault::NoMemory)
            } else {
                Err(WordsFault::BadWords)
            }
        }
    }
}

/// The subcommand that was met, with its matches.
fn entered<'m, 'a>(matches: &'m ArgMatches<'a>) -> Option<(&'a str, &'m ArgMatches<'a>)>
    ensures { option_map (λ p. (p.0.now, given_to p.1.now)) result
        ≡ subcommand_rows_of matches.now }
{
    matches.subcommand()
}

/// The first word for an id.
fn first<'a>(matches: &ArgMatches<'a>, id: &str) -> Option<&'a str>
    ensures { option_map (λ s. s.now) result ≡ first_of id.now (given_to matches.now) }
{
    matches.get_str(id)
}

/// All the words for an id.
fn all<'m, 'a>(matches: &'m ArgMatches<'a>, id: &str) -> Option<&'m [&'a str]>
    ensures { option_map (λ s. map (λ v. v.now) s.now) result
        ≡ all_of id.now (given_to matches.now) }
{
    matches.get_raw(id)
}

/// The number for an id.
fn number_at(matches: &ArgMatches<'_>, id: &str) -> Option<u32>
    ensures { result ≡ spelling.number_at (given_to matches.now) id.now }
{
    match first(matches, id) {
        Some(word) => number_of_word(word),
        None => None,
    }
}

/// What a subcommand was given.
#[derive(Drop)]
struct CommandLineArguments<'m, 'a>(&'m ArgMatches<'a>);

impl ArgumentSource for CommandLineArguments<'_, '_> {
    ghost use Rattle.desk_words.specs.Spelling.{given_to, sheet_of};

    ghost sheet = { λ given. sheet_of (given_to given.0.now) };

    fn id(&self, key: &str) -> Option<u32> {
        number_at(self.0, key)
    }

    fn queue(&self, key: &str) -> Option<&str> {
        first(self.0, key)
    }

    fn number(&self, key: &str) -> Option<u32> {
        number_at(self.0, key)
    }

    fn text(&self, key: &str) -> Option<&str> {
        first(self.0, key)
    }

    fn maybe(&self, key: &str) -> Option<Option<&str>> {
        Some(first(self.0, key))
    }

    fn texts(&self, alloc: Global, key: &str) -> Result<Option<Texts>, AllocError> {
        match all(self.0, key) {
            Some(words) => Ok(Some(Texts::new(alloc, words)?)),
            None => Ok(Some(Texts::from(Vec::new(alloc)))),
        }
    }

    fn is_set(&self, key: &str) -> bool {
        match first(self.0, key) {
            Some(word) => word == "true",
            None => false,
        }
    }
}
