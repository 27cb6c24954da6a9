//! A line as words.

ghost use Rattle.std.specs.Prelude.{◌≡◌, ◌≢◌, ℕ, List, [], ◌∷◌, ◌++◌, Err, Some, None, map};
ghost use Rattle.std.specs.Prelude.{string_bytes, encode_utf8, IfOk, IfErr, OnOk, Option};
ghost use Rattle.desk_words.specs.Words as spec;
ghost use Rattle.desk_words.specs.Reader.{read_at, after};

use crate::fault::WordsFault;
use std::alloc::{AllocError, Global};

/// The words of a line. They stand apart by one or more spaces; a word in quotes may hold spaces,
/// and in it `\"`, `\\`, `\n` and `\t` stand for the quote, the backslash, a line feed and a tab.
///
/// `BadQuote` where another character comes after such a backslash, a quote isn't closed or isn't
/// followed by a space or the end, or a word that doesn't begin with a quote has one.
pub fn words_of(alloc: Global, line: &str) -> Result<Vec<String>, WordsFault>
    ensures ok { IfOk result (λ ws. spec.words_of line.now ≡ Some (map string_bytes ws.items)) }
    ensures bad { result ≡ Err WordsFault.BadQuote → spec.words_of line.now ≡ None }
    ensures kinds { IfErr result (λ e. e ≢ WordsFault.NoMemory → e ≡ WordsFault.BadQuote) }
{
    let mut words = Vec::new(alloc);
    let mut place = Place::Between;
    for character in line.chars() {
        place = place_after(alloc, &mut words, place, character)?;
    }
    finish(&mut words, place)?;
    Ok(words)
}

/// Where in a line the next character stands, with the word that it may belong to.
#[derive(Drop)]
enum Place {
    /// Between words.
    Between,
    /// In a word that begins without a quote.
    Bare(String),
    /// Within quotes.
    Quoted(String),
    /// Within quotes after a backslash.
    Escaped(String),
    /// After the closing quote.
    Closed(String),
}

/// The place after a character. A word that it ends is put to the words.
fn place_after(
    alloc: Global,
    words: &mut Vec<String>,
    place: Place,
    character: char,
) -> Result<Place, WordsFault>
    ensures ok { (text : List ℕ) → IfOk result (λ p.
        after (map string_bytes words.old.items) (read_at place (character ∷ text))
        ≡ after (map string_bytes words.new.items) (read_at p text)) }
    ensures bad { (text : List ℕ) → result ≡ Err WordsFault.BadQuote
        → read_at place (character ∷ text) ≡ None }
    ensures kinds { IfErr result (λ e. e ≢ WordsFault.NoMemory → e ≡ WordsFault.BadQuote) }
{
    match place {
        Place::Between => Ok(after_space(alloc, character)?),
        Place::Bare(word) => after_bare(words, word, character),
        Place::Quoted(word) => Ok(after_quoted(word, character)?),
        Place::Escaped(word) => Ok(after_escaped(word, character)?),
        Place::Closed(word) => after_closed(words, word, character),
    }
}

/// The place after a character between words.
fn after_space(alloc: Global, character: char) -> Result<Place, AllocError>
    ensures { (text : List ℕ) → IfOk result (λ p.
        spec.between (character ∷ text) ≡ read_at p text) }
{
    match character {
        ' ' => Ok(Place::Between),
        '"' => Ok(Place::Quoted(String::new(alloc))),
        _ => Ok(Place::Bare(with(String::new(alloc), character)?)),
    }
}

/// The place after a character in a word without quotes.
fn after_bare(words: &mut Vec<String>, word: String, character: char) -> Result<Place, WordsFault>
    ensures ok { (text : List ℕ) → IfOk result (λ p. after (map string_bytes words.old.items)
        (spec.word_of (string_bytes word) (spec.bare (character ∷ text)))
        ≡ after (map string_bytes words.new.items) (read_at p text)) }
    ensures bad { (text : List ℕ) → result ≡ Err WordsFault.BadQuote
        → spec.bare (character ∷ text) ≡ None }
    ensures kinds { IfErr result (λ e. e ≢ WordsFault.NoMemory → e ≡ WordsFault.BadQuote) }
{
    match character {
        ' ' => Ok(ended(words, word)?),
        '"' => Err(WordsFault::BadQuote),
        _ => Ok(Place::Bare(with(word, character)?)),
    }
}

/// The place after a character within quotes.
fn after_quoted(word: String, character: char) -> Result<Place, AllocError>
    ensures { (text : List ℕ) → IfOk result (λ p.
        spec.word_of (string_bytes word) (spec.quoted (character ∷ text)) ≡ read_at p text) }
{
    match character {
        '"' => Ok(Place::Closed(word)),
        '\\' => Ok(Place::Escaped(word)),
        _ => Ok(Place::Quoted(with(word, character)?)),
    }
}

/// The place after a character that stands after a backslash.
fn after_escaped(word: String, character: char) -> Result<Place, WordsFault>
    ensures ok { (text : List ℕ) → IfOk result (λ p.
        spec.word_of (string_bytes word) (spec.escaped (character ∷ text)) ≡ read_at p text) }
    ensures bad { (text : List ℕ) → result ≡ Err WordsFault.BadQuote
        → spec.escaped (character ∷ text) ≡ None }
    ensures kinds { IfErr result (λ e. e ≢ WordsFault.NoMemory → e ≡ WordsFault.BadQuote) }
{
    match meant(character) {
        Some(character) => Ok(Place::Quoted(with(word, character)?)),
        None => Err(WordsFault::BadQuote),
    }
}

/// The place after a character that follows a closing quote.
fn after_closed(words: &mut Vec<String>, word: String, character: char) -> Result<Place, WordsFault>
    ensures ok { (text : List ℕ) → IfOk result (λ p. after (map string_bytes words.old.items)
        (spec.word_of (string_bytes word) (spec.closed (character ∷ text)))
        ≡ after (map string_bytes words.new.items) (read_at p text)) }
    ensures bad { (text : List ℕ) → result ≡ Err WordsFault.BadQuote
        → spec.closed (character ∷ text) ≡ None }
    ensures kinds { IfErr result (λ e. e ≢ WordsFault.NoMemory → e ≡ WordsFault.BadQuote) }
{
    if character == ' ' {
        Ok(ended(words, word)?)
    } else {
        Err(WordsFault::BadQuote)
    }
}

/// What a character after a backslash stands for.
fn meant(character: char) -> Option<char>
    ensures { result ≡ spec.meant character }
{
    match character {
        '"' => Some('"'),
        '\\' => Some('\\'),
        'n' => Some('\n'),
        't' => Some('\t'),
        _ => None,
    }
}

/// The word is put to the words, and the place is between words.
#[tactic(auto, using(crate::proofs::Reading::word_ends))]
fn ended(words: &mut Vec<String>, word: String) -> Result<Place, AllocError>
    ensures { (rest : Option (List (List ℕ))) → IfOk result (λ p. (p ≡ Place.Between)
        × (after (map string_bytes words.old.items)
        (spec.word_of (string_bytes word) (spec.ended rest))
        ≡ after (map string_bytes words.new.items) rest)) }
{
    words.push(word)?;
    Ok(Place::Between)
}

/// The word with the character at its end.
#[tactic(auto, using(crate::proofs::Reading::word_grows))]
fn with(mut word: String, character: char) -> Result<String, AllocError>
    ensures { (rest : Option spec.Rest) → IfOk result (λ w.
        spec.word_of (string_bytes word) (spec.onto (encode_utf8 character) rest)
        ≡ spec.word_of (string_bytes w) rest) }
{
    word.push(character)?;
    Ok(word)
}

/// At the end of the line, the word that is read is put to the words.
fn finish(words: &mut Vec<String>, place: Place) -> Result<(), WordsFault>
    ensures ok { OnOk result (after (map string_bytes words.old.items) (read_at place [])
        ≡ Some (map string_bytes words.new.items)) }
    ensures bad { result ≡ Err WordsFault.BadQuote → read_at place [] ≡ None }
    ensures kinds { IfErr result (λ e. e ≢ WordsFault.NoMemory → e ≡ WordsFault.BadQuote) }
{
    match place {
        Place::Between => Ok(()),
        Place::Bare(word) | Place::Closed(word) => Ok(words.push(word)?),
        Place::Quoted(_) | Place::Escaped(_) => Err(WordsFault::BadQuote),
    }
}
