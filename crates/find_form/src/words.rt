//! The words of a text.

ghost use Rattle.std.specs.Prelude.{◌≡◌, IfOk};
ghost use Rattle.find_form.specs.SearchFields as spec;

use std::alloc::{AllocError, Global};
use text_core::{Text, Texts};

/// Copies of the words that stand between spaces. `AllocError` where memory is refused.
pub fn words_in(alloc: Global, text: &str) -> Result<Texts, AllocError>
    ensures { IfOk result (λ words. words ≡ spec.words_in text.now) }
{
    let mut words = Vec::new(alloc);
    for word in text.split(' ') {
        if !word.is_empty() {
            words.push(Text::new(alloc, word)?)?;
        }
    }
    Ok(Texts::from(words))
}
