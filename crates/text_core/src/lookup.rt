//! Lists of texts in which one is found without a walk over all.

ghost use Rattle.std.specs.Prelude.{◌≡◌, is_some, not, IfOk, IfSome};
ghost use Rattle.text_core.specs.Lookup.{IsSetOf};
ghost use Rattle.text_core.specs.Texts as words;

use crate::text::Text;
use crate::texts::{Texts, is_among, repeats_text};
use std::alloc::{AllocError, Global};
use std::collections::HashSet;
use std::marker::Model;

/// A list in which no text stands twice, seen as the list. A text is found by a set of them, and
/// by a walk where the set was refused memory.
#[derive(Drop)]
pub struct Lookup<'a> {
    texts: &'a [Text],
    set: Option<HashSet<String>>,
}

impl<'a> Model for Lookup<'a> {
    ghost use Rattle.std.specs.Prelude.{ℕ, List, IfSome};
    ghost use Rattle.text_core.specs.Lookup.{IsSetOf};

    ghost Value = { List (List ℕ) };

    ghost view = { λ l. l.texts.now };

    ghost invariant = { λ l. IfSome l.set (IsSetOf l.texts.now) };
}

impl<'a> Lookup<'a> {
    /// The lookup of a list, or `None` where a text stands in it twice. It answers without memory
    /// too.
    pub fn of(alloc: Global, texts: &'a [Text]) -> Option<Lookup<'a>>
        ensures once { is_some result ≡ not (words.repeats_text texts.now) }
        ensures texts { IfSome result (λ l. l ≡ texts.now) }
    {
        let set = match distinct(alloc, texts) {
            Ok(set) => Some(set?),
            Err(_) if repeats_text(texts) => return None,
            Err(_) => None,
        };
        Some(Lookup { texts, set })
    }

    /// Whether the text is one of the list.
    pub fn contains(&self, text: &str) -> bool
        ensures { result ≡ words.is_among self.now text.now }
    {
        match &self.set {
            Some(set) => set.contains(text),
            None => is_among(self.texts, text),
        }
    }

    /// Whether one of the texts is in the list.
    pub fn has_one_of(&self, texts: &[Text]) -> bool
        ensures { result ≡ words.shares_text texts.now self.now }
    {
        texts.iter().any(|t| self.contains(t.as_str()))
    }
}

/// Texts in order, of which one is found by a set of them. They are seen as the list.
#[derive(Drop)]
pub struct IndexedTexts {
    texts: Texts,
    set: HashSet<String>,
}

impl Model for IndexedTexts {
    ghost use Rattle.std.specs.Prelude.{ℕ, List};
    ghost use Rattle.text_core.specs.Lookup.{IsSetOf};

    ghost Value = { List (List ℕ) };

    ghost view = { λ t. t.texts };

    ghost invariant = { λ t. IsSetOf t.texts t.set };
}

impl IndexedTexts {
    /// The texts with a set of them.
    pub fn new(alloc: Global, texts: Texts) -> Result<IndexedTexts, AllocError>
        ensures { IfOk result (λ t. t ≡ texts) }
    {
        let set = set_of(alloc, texts.as_slice())?;
        Ok(IndexedTexts { texts, set })
    }

    /// The texts, to be looked at.
    pub fn as_slice(&self) -> &[Text]
        ensures { result.now ≡ self.now }
    {
        self.texts.as_slice()
    }

    /// Whether the text is one of these.
    pub fn contains(&self, text: &str) -> bool
        ensures { result ≡ words.is_among self.now text.now }
    {
        self.set.contains(text)
    }
}

/// The texts as a set.
fn set_of(alloc: Global, texts: &[Text]) -> Result<HashSet<String>, AllocError>
    ensures { IfOk result (IsSetOf texts.now) }
{
    let mut set = HashSet::with_capacity(alloc, texts.len())?;
    for text in texts {
        set.insert(String::from_str(alloc, text.as_str())?)?;
    }
    Ok(set)
}

/// The texts as a set, or `None` where one stands twice.
pub fn distinct(alloc: Global, texts: &[Text]) -> Result<Option<HashSet<String>>, AllocError>
    ensures once { IfOk result (λ s. is_some s ≡ not (words.repeats_text texts.now)) }
    ensures set { IfOk result (λ o. IfSome o (IsSetOf texts.now)) }
{
    let mut set = HashSet::with_capacity(alloc, texts.len())?;
    for text in texts {
        if !set.insert(String::from_str(alloc, text.as_str())?)? {
            return Ok(None);
        }
    }
    Ok(Some(set))
}
