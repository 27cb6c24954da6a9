//! A line of a script, and what it prints.
//!
//! What owns much is given back by `drop`, whose proof stands once; at the end of its scope it
//! would be taken apart for each function's own proof.

ghost use Rattle.std.specs.Prelude.{◌≡◌, ◌≤◌, ◌+◌, [], map, true, false, is_ok, IfOk};
ghost use Rattle.std.specs.Prelude.{IfErr, OnErr, string_bytes};
ghost use Rattle.std.specs.Vec.{vec_capacity, vec_len};
ghost use Rattle.service_core.specs.Leaves.{LeavesDesk};
ghost use Rattle.service_core.specs.Seen.{settings_of, tables_of};
ghost use Rattle.desk_texts.specs.Short.{is_short};
ghost use Rattle.desk_texts.specs.Texts.{outcome_text};
ghost use Rattle.desk_program.specs.FaultLines.{unavailable_text};
ghost use Rattle.desk_program.specs.Script.{LineLeads, line_of, line_of_words, is_passed_over};
ghost use Rattle.desk_program.specs.Script.{is_comment};

use crate::fault_lines::BAD_WORDS;
use desk_core::Command;
use service_core::Desk;
use std::alloc::{AllocError, Global};
use store_core::Backend;
use text_core::Text;
use wire_core::{WordsFault, command_of_words, number_of_word, words_of};

/// What a line of a script says.
#[derive(Drop)]
pub enum Line {
    /// Nothing: it is empty, or a comment.
    PassedOver,
    /// Nothing that is understood.
    BadWords,
    /// A command by a caller at a moment.
    Asked {
        at: u32,
        caller: Text,
        command: Command,
    },
}

/// What a line of a script prints, after its command is done: nothing for an empty line or a
/// comment, `bad words` for one that spells no command, else the text of what came of it. The line
/// has no line feed. `AllocError` stands for the text `refused 16 Unavailable`, and the desk stays as
/// it was.
#[tactic(auto, using(service_core::proofs::LeftLemmas::left_same))]
pub fn answer_line<S: Backend>(
    alloc: Global,
    desk: &mut Desk<S>,
    text: &str,
) -> Result<Vec<u8>, AllocError>
    ensures ok { IfOk result (λ printed. LineLeads (settings_of S.Store desk.old)
        (line_of text.now) printed.items
        (tables_of S.Store desk.old) (tables_of S.Store desk.new)) }
    ensures err { OnErr result (LineLeads (settings_of S.Store desk.old)
        (line_of text.now) unavailable_text
        (tables_of S.Store desk.old) (tables_of S.Store desk.new)) }
    ensures left { LeavesDesk S.Store desk.old desk.new }
{
    match line_of(alloc, text) {
        Ok(Line::PassedOver) => Ok(Vec::new(alloc)),
        Ok(Line::BadWords) => Vec::from_slice(alloc, BAD_WORDS),
        Ok(
            Line::Asked {
                at,
                caller,
                command,
            },
        ) => {
            let answer = answer_command(alloc, desk, at, caller.as_str(), &command);
            drop(command);
            answer
        }
        Err(_) => Err(AllocError),
    }
}

/// What a command prints, after it is done.
fn answer_command<S: Backend>(
    alloc: Global,
    desk: &mut Desk<S>,
    at: u32,
    caller: &str,
    command: &Command,
) -> Result<Vec<u8>, AllocError>
    ensures ok { IfOk result (λ printed. LineLeads (settings_of S.Store desk.old)
        (Line.Asked at caller.now command.now) printed.items
        (tables_of S.Store desk.old) (tables_of S.Store desk.new)) }
    ensures err { OnErr result (LineLeads (settings_of S.Store desk.old)
        (Line.Asked at caller.now command.now) unavailable_text
        (tables_of S.Store desk.old) (tables_of S.Store desk.new)) }
    ensures left { LeavesDesk S.Store desk.old desk.new }
{
    match desk.execute_as_text(alloc, at, caller, command) {
        Ok(told) => Ok(told.into_text()),
        Err(_) => Err(AllocError),
    }
}

/// What a line says.
fn line_of(alloc: Global, text: &str) -> Result<Line, AllocError>
    ensures ok { IfOk result (λ line. line ≡ line_of text.now) }
    ensures asked { OnErr result (is_passed_over text.now ≡ false) }
{
    if is_passed_over(text.as_bytes()) {
        return Ok(Line::PassedOver);
    }
    match words_of(alloc, text) {
        Ok(words) => line_of_words(alloc, words.as_slice()),
        Err(WordsFault::NoMemory) => Err(AllocError),
        Err(_) => Ok(Line::BadWords),
    }
}

/// What the words of a line say: a moment, a caller and a command.
fn line_of_words(alloc: Global, words: &[String]) -> Result<Line, AllocError>
    ensures { IfOk result (λ line. line ≡ line_of_words (map string_bytes words.now)) }
{
    let [at, caller, command @ ..] = words else {
        return Ok(Line::BadWords);
    };
    let Some(at) = number_of_word(at.as_str()) else {
        return Ok(Line::BadWords);
    };
    let caller = Text::new(alloc, caller.as_str())?;
    match command_of_words(alloc, command) {
        Ok(command) => Ok(Line::Asked {
            at,
            caller,
            command,
        }),
        Err(WordsFault::NoMemory) => Err(AllocError),
        Err(_) => Ok(Line::BadWords),
    }
}

/// Whether a line is empty, or the first byte that isn't a space is `#`.
fn is_passed_over(text: &[u8]) -> bool
    ensures { result ≡ is_passed_over text.now }
{
    text.is_empty() || is_comment(text)
}

fn is_comment(text: &[u8]) -> bool
    ensures { result ≡ is_comment text.now }
{
    for byte in text {
        if *byte != b' ' {
            return *byte == b'#';
        }
    }
    false
}
