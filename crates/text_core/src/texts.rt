//! Lists of texts: what stands in them, twice in one, and in two.

ghost use Rattle.std.specs.Prelude.{◌≡◌, IfOk, map};
ghost use Rattle.text_core.specs.Texts as words;

use crate::sequence::Sequence;
use crate::text::Text;
use std::alloc::{AllocError, Global};

/// Texts in order.
pub type Texts = Sequence<Text>;

impl Sequence<Text> {
    /// Copies of texts that are only looked at.
    pub fn new(alloc: Global, texts: &[&str]) -> Result<Texts, AllocError>
        ensures { IfOk result (λ copies. copies ≡ map (λ t. t.now) texts.now) }
    {
        let mut copies = Vec::with_capacity(alloc, texts.len())?;
        for text in texts {
            copies.push(Text::new(alloc, text)?)?;
        }
        Ok(Texts::from(copies))
    }

    /// Whether the text is one of these.
    pub fn contains(&self, text: &str) -> bool
        ensures { result ≡ words.is_among self.now text.now }
    {
        is_among(self.as_slice(), text)
    }
}

/// Whether the text is one of the list.
pub fn is_among(texts: &[Text], text: &str) -> bool
    ensures { result ≡ words.is_among texts.now text.now }
{
    texts.iter().any(|t| t.as_str() == text)
}

/// Whether the list has a text twice.
pub fn repeats_text(texts: &[Text]) -> bool
    ensures { result ≡ words.repeats_text texts.now }
{
    for (i, text) in texts.iter().enumerate() {
        if is_among(&texts[i + 1..], text.as_str()) {
            return true;
        }
    }
    false
}

/// Whether a text of the first list is in the second too.
pub fn shares_text(texts: &[Text], others: &[Text]) -> bool
    ensures { result ≡ words.shares_text texts.now others.now }
{
    texts.iter().any(|t| is_among(others, t.as_str()))
}
