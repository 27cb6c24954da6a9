//! Whether words stand in texts.
ghost use Rattle.std.specs.Prelude.{◌≡◌, ◌&&◌, ℕ, List, ◌∷◌, map};
ghost use Rattle.std.specs.Char.{to_ascii_lowercase};
ghost use Rattle.std.specs.List.{list_any};
ghost use Rattle.std.specs.Str.Iter.{chars_rest, chars_steps};
ghost use Rattle.caseless.specs.CaseFold.{FoldsCaseTo, IsSameCaseFold};
ghost use Rattle.find_core.specs.Words as matching;
ghost use Rattle.find_core.specs.Find as find;
ghost use Rattle.find_core.specs.Find.{replies_of};

use caseless::{CaseFold, Caseless};
use desk_core::{Entry, EntryKind};
use std::str::Chars;
use text_core::Text;

/// Whether each of the words stands in the subject, or in the text of a reply or a comment that is
/// among these entries, if those are to be looked through.
pub(crate) fn has_words(words: &[Text], subject: &Text, entries: &[Entry]) -> bool
    ensures { result ≡ matching.has_words words.now (subject.now ∷ replies_of entries.now) }
{
    words.iter().all(|word| stands_in(word, subject) || is_replied(word, entries))
}

/// Whether the word stands in the text of a reply or a comment.
fn is_replied(word: &Text, entries: &[Entry]) -> bool
    ensures { result ≡ list_any (matching.stands_in word.now) (replies_of entries.now) }
{
    is_in_one(word, entries)
}

fn is_in_one(word: &Text, entries: &[Entry]) -> bool
    ensures { result
        ≡ list_any (λ e. find.is_written e.kind && matching.stands_in word.now e.body) entries.now }
{
    entries.iter().any(|entry| is_written(entry.kind) && stands_in(word, &entry.body))
}

/// Whether an entry has a text that somebody wrote.
fn is_written(kind: EntryKind) -> bool
    ensures { result ≡ find.is_written kind }
{
    match kind {
        EntryKind::Reply => true,
        EntryKind::Comment => true,
        _ => false,
    }
}

/// Whether the word stands in the text, where the case of letters is passed over.
#[tactic(auto, using(crate::proofs::LetterLemmas::in_ascii))]
fn stands_in(word: &Text, text: &Text) -> bool
    ensures { result ≡ matching.stands_in word.now text.now }
{
    let (word, text) = (word.as_str(), text.as_str());
    if word.is_ascii() && text.is_ascii() {
        stands_in_ascii(word.as_bytes(), text.as_bytes())
    } else {
        stands_in_folded(word, text)
    }
}

/// The same of texts of ASCII, where folding a letter makes a small one of a large one.
fn stands_in_ascii(word: &[u8], text: &[u8]) -> bool
    ensures { result
        ≡ matching.stands_among (map to_ascii_lowercase word.now) (map to_ascii_lowercase text.now) }
{
    let mut rest = text;
    'places: while let [_, further @ ..] = rest {
        if begins_ascii(word, rest) {
            return true;
        }
        rest = further;
    }
    begins_ascii(word, rest)
}

/// Whether the text of ASCII begins with the word.
fn begins_ascii(word: &[u8], text: &[u8]) -> bool
    ensures { result
        ≡ matching.begins (map to_ascii_lowercase word.now) (map to_ascii_lowercase text.now) }
{
    let mut left = word;
    let mut rest = text;
    'letters: while let [letter, letters @ ..] = left {
        match rest {
            [other, others @ ..] if letter.eq_ignore_ascii_case(other) => {
                left = letters;
                rest = others;
            }
            _ => return false,
        }
    }
    true
}

/// What is left of a text, letter by letter, each folded.
type Letters<'a> = CaseFold<Chars<'a>>;

/// Whether the folded word stands in the folded text. Each letter of the text is folded once, and
/// what follows it only where the word may begin there; nothing is kept.
fn stands_in_folded(word: &str, text: &str) -> bool
    ensures { result ≡ matching.stands_in word.now text.now }
{
    let mut letters = word.chars().default_case_fold();
    match letters.next() {
        Some(first) => stands_among(first, &letters, text.chars().default_case_fold()),
        None => true,
    }
}

/// Whether a word that begins with this letter, and goes on with the others, stands in what is left
/// of a text.
fn stands_among(first: char, others: &Letters<'_>, mut rest: Letters<'_>) -> bool
    ensures { (word text : List ℕ) → FoldsCaseTo chars_steps others.now word
        → FoldsCaseTo chars_steps rest.entry text
        → result ≡ matching.stands_among (first ∷ word) text }
{
    'places: while let Some(letter) = rest.next() {
        if letter == first && begins(copy(others), copy(&rest)) {
            return true;
        }
    }
    false
}

/// Whether what is left of a text begins with what is left of a word.
fn begins(mut word: Letters<'_>, mut text: Letters<'_>) -> bool
    ensures { (letters others : List ℕ) → FoldsCaseTo chars_steps word.entry letters
        → FoldsCaseTo chars_steps text.entry others
        → result ≡ matching.begins letters others }
{
    'letters: while let Some(letter) = word.next() {
        let Some(other) = text.next() else {
            return false;
        };
        if letter != other {
            return false;
        }
    }
    true
}

fn copy<'a>(letters: &Letters<'a>) -> Letters<'a>
    ensures { IsSameCaseFold (λ s r. chars_rest r ≡ chars_rest s) letters.now result }
{
    match letters.clone() {
        Ok(copy) => copy,
        Err(_) => unreachable!(),
    }
}
