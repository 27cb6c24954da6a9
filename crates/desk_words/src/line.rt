//! The command line that `clap` is given.

ghost use Rattle.std.specs.Prelude.{◌≡◌, map, string_bytes, IfOk, false};
ghost use Rattle.clap.specs.Words as clap;
ghost use Rattle.clap.specs.Words.{Rule, rule_of, with_rule, with_subcommand};
ghost use Rattle.desk_words.specs.Arguments.{bare};
ghost use Rattle.desk_words.specs.Line as line;
ghost use Rattle.desk_words.specs.Line.{Is};
ghost use Rattle.desk_forms.specs.Table as table;
ghost use Rattle.desk_forms.specs.Words.{word_of};

use clap::{Arg as Argument, ArgAction, Command as App};
use desk_forms::kinds::Kind;
use desk_forms::table::{args_of, words};
use desk_forms::words::{Word, row_of};
use std::alloc::{AllocError, Global};

/// The command line of the desk, as far as these words need it: with the subcommand that the first
/// of them names alone, or whole where it names none. To make all subcommands takes longer than
/// all else that a line of a script asks for.
pub(crate) fn needed_for<'a>(alloc: Global, given: &'a [String]) -> Result<App<'a>, AllocError>
    ensures { IfOk result
        (Is (line.line (line.needed table.words (map string_bytes given.entry.now)))) }
{
    match given.first() {
        Some(word) => match row_of(word.as_str()) {
            Some(row) => line_of(alloc, &[row]),
            None => line_of(alloc, words()),
        },
        None => line_of(alloc, words()),
    }
}

/// The command line with the subcommands of these rows.
fn line_of<'a>(alloc: Global, rows: &[Word]) -> Result<App<'a>, AllocError>
    ensures { IfOk result (Is (line.line (map word_of rows.now))) }
{
    let mut command = root_command(alloc);
    for row in rows {
        command = with_subcommand(command, subcommand(alloc, *row)?)?;
    }
    Ok(command)
}

/// The command above all others. Help words are none of its words.
fn root_command<'a>(alloc: Global) -> App<'a>
    ensures { Is line.root result }
{
    bare_command(alloc, "desk")
        .no_binary_name(true)
        .disable_help_subcommand(true)
        .subcommand_required(true)
}

/// The subcommand of a row.
fn subcommand<'a>(alloc: Global, row: Word) -> Result<App<'a>, AllocError>
    ensures { IfOk result (Is (line.subcommand (word_of row))) }
{
    let args = args_of(row.1);
    let mut command = bare_command(alloc, row.0);
    for arg in args {
        command = with_argument(command, argument(alloc, arg.1, arg.0))?;
    }
    Ok(command)
}

fn bare_command<'a>(alloc: Global, name: &'a str) -> App<'a>
    ensures { Is (bare name.entry.now) result }
{
    App::new(alloc, name).disable_help_flag(true)
}

fn with_argument<'a>(command: App<'a>, argument: Argument<'a>) -> Result<App<'a>, AllocError>
    requires { argument.global ≡ false }
    ensures { (a : clap.App) (r : Rule) → Is a command.entry → rule_of argument.entry ≡ r
        → IfOk result (Is (with_rule a r)) }
{
    command.arg(argument)
}

fn with_subcommand<'a>(command: App<'a>, sub: App<'a>) -> Result<App<'a>, AllocError>
    ensures { (a b : clap.App) → Is a command.entry → Is b sub.entry
        → IfOk result (Is (with_subcommand a b.top)) }
{
    command.subcommand(sub)
}

/// What is told of an argument of a kind.
fn argument<'a>(alloc: Global, kind: Kind, key: &'a str) -> Argument<'a>
    ensures rule { rule_of result ≡ line.rule_by kind key.entry.now }
    ensures local { result.global ≡ false }
{
    let bare = Argument::new(alloc, key);
    match kind {
        Kind::Maybe => bare.action(ArgAction::Set),
        Kind::Named => bare.long(key).action(ArgAction::Set),
        Kind::Many => bare.action(ArgAction::Append),
        Kind::Flag(letter) => bare.short(letter).action(ArgAction::SetTrue),
        _ => bare.required(true).action(ArgAction::Set),
    }
}
