//! A text that is read from the standard input.

use crate::Ended;
use desk_model::Command;
use std::alloc::Global;
use std::io::Read;
use text_core::Text;

/// As many bytes as the body of a message may have, which is more than its text.
const MOST: usize = 65_536;

/// More reads than these bytes take.
const READS: u32 = 65_538;

/// How many bytes are asked for at once.
const CHUNK: usize = 8_192;

/// The command with the standard input in place of a reply, a comment or a subject that is `-`. A
/// line feed at its end is dropped.
pub fn with_input(rt: &HostRuntime, command: Command) -> Result<Command, Ended> {
    match command {
        Command::Reply { id, text } => Ok(Command::Reply {
            id,
            text: text_or_input(rt, text)?,
        }),
        Command::Comment { id, text } => Ok(Command::Comment {
            id,
            text: text_or_input(rt, text)?,
        }),
        Command::Create {
            queue,
            subject,
            status,
            requestors,
        } => Ok(Command::Create {
            queue,
            subject: text_or_input(rt, subject)?,
            status,
            requestors,
        }),
        other => Ok(other),
    }
}

fn text_or_input(rt: &HostRuntime, text: Text) -> Result<Text, Ended> {
    if text.as_str() == "-" {
        input_text(rt)
    } else {
        Ok(text)
    }
}

/// The text of the standard input.
fn input_text(rt: &HostRuntime) -> Result<Text, Ended> {
    let bytes = all_of(rt.alloc(), &mut rt.reader(), MOST)?;
    let all = bytes.as_slice();
    let text = match all {
        [front @ .., b'\n'] => front,
        _ => all,
    };
    match str::from_utf8(text) {
        Ok(text) => match Text::new(rt.alloc(), text) {
            Ok(text) => Ok(text),
            Err(_) => Err(Ended::NoMemory),
        },
        Err(_) => Err(Ended::NoInput),
    }
}

/// All that a reader has left; `TooLong` where that is more than so many bytes, and `NoInput` where
/// it can't be read.
pub fn all_of<R: Read>(alloc: Global, reader: &mut R, most: usize) -> Result<Vec<u8>, Ended> {
    let mut taken = Vec::new(alloc);
    for _turn in 0..READS {
        let mut chunk = [0u8; CHUNK];
        let Ok(count) = reader.read(&mut chunk) else {
            return Err(Ended::NoInput);
        };
        if count == 0 {
            return Ok(taken);
        }
        if taken.extend_from_slice(&chunk[..count]).is_err() {
            return Err(Ended::NoMemory);
        }
        if taken.len() > most {
            return Err(Ended::TooLong);
        }
    }
    Err(Ended::TooLong)
}
