//! Lists of commands that are made by lot, and the messages that ask the same.

use crate::asks::{Ask, ask_of};
use crate::failure::Failure;
use crate::made::next;
use crate::served::Sent;
use case_text::{Words, replaced};
use std::alloc::{AllocError, Global};

/// What lists are made of.
#[derive(Drop)]
pub(crate) struct Urn<'t> {
    /// Lines `MOMENT CALLER WORDS|METHOD PATH|BODY`, in which a key stands for one of its words.
    pub(crate) lines: Vec<&'t str>,
    /// Lines `KEY WORD ..`.
    keys: Vec<&'t str>,
}

/// A list: commands, the messages that ask the same, and the line that each was made of.
#[derive(Drop)]
pub(crate) struct Drawn {
    pub(crate) asks: Vec<Ask>,
    pub(crate) sent: Vec<Sent>,
    pub(crate) places: Vec<usize>,
}

/// What the lines of a case give.
pub(crate) fn urn_of<'t>(alloc: Global, text: &'t str) -> Result<Urn<'t>, AllocError> {
    let mut lines = Vec::new(alloc);
    let mut keys = Vec::new(alloc);
    for line in text.lines() {
        if line.contains('|') {
            lines.push(line)?;
        } else {
            keys.push(line)?;
        }
    }
    Ok(Urn { lines, keys })
}

/// A list of so many commands, by the generator's number, and its number afterwards. The first
/// command is made of the first line, the next one of the first two, and so on.
pub(crate) fn draw(
    alloc: Global,
    urn: &Urn<'_>,
    count: u32,
    number: u32,
) -> Result<(Drawn, u32), Failure> {
    let mut number = number;
    let mut list = Drawn {
        asks: Vec::new(alloc),
        sent: Vec::new(alloc),
        places: Vec::new(alloc),
    };
    for i in 0..count {
        number = next(number);
        let most = (i as usize).saturating_add(1).min(urn.lines.len());
        let place = place_of(number, most);
        let line = urn.lines.get(place).copied().unwrap_or("");
        let (line, after) = filled(alloc, urn, line, number)?;
        number = after;
        put(alloc, &mut list, line.as_str())?;
        list.places.push(place)?;
    }
    Ok((list, number))
}

/// Which of so many the generator's number draws.
fn place_of(number: u32, count: usize) -> usize {
    ((number / 65_536) as usize).checked_rem(count).unwrap_or(0)
}

/// The line with a word for each key, and the generator's number afterwards.
fn filled(
    alloc: Global,
    urn: &Urn<'_>,
    line: &str,
    number: u32,
) -> Result<(String, u32), AllocError> {
    let mut number = number;
    let mut text = String::from_str(alloc, line)?;
    for words in urn.keys.as_slice() {
        number = next(number);
        let (key, words) = words.split_once(' ').unwrap_or((words, ""));
        if line.contains(key) {
            let place = place_of(number, words.split(' ').count());
            let word = words.split(' ').nth(place).unwrap_or("");
            text = replaced(alloc, text.as_str(), key, word)?;
        }
    }
    Ok((text, number))
}

/// Adds the command and the message of a line.
fn put(alloc: Global, list: &mut Drawn, line: &str) -> Result<(), Failure> {
    let (words, message) = line.split_once('|').ok_or(Failure::BadLine)?;
    list.sent.push(sent_of(alloc, words, message)?)?;
    list.asks.push(ask_of(alloc, words)?)?;
    Ok(())
}

/// The message that asks what the words `MOMENT CALLER ..` do, with the token of the caller.
fn sent_of(alloc: Global, words: &str, message: &str) -> Result<Sent, Failure> {
    let mut words = Words::of(words);
    let (at, who) = (words.count()?, words.next());
    let (start, body) = message.split_once('|').ok_or(Failure::BadLine)?;
    let len = body.len();
    let text = format!(in alloc;
        "{start} HTTP/1.1\r\nDesk-Token: {who}-token-0000000\r\nContent-Length: {len}\r\n\r\n{body}"
    )?;
    Ok((at, text.into_bytes()))
}
