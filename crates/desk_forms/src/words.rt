//! The words of commands.

ghost use Rattle.std.specs.Prelude.{◌≡◌, map};
ghost use Rattle.std.specs.Option.{option_map};
ghost use Rattle.desk_forms.specs.Table as table;
ghost use Rattle.desk_forms.specs.Words as words;

use crate::table::{CommandForm, words};

/// The word that asks for a command of a form.
#[derive(Clone, Copy)]
pub struct Word(pub &'static str, pub CommandForm);

/// The first of these rows with this word, if there is one.
fn row_in(rows: &[Word], word: &str) -> Option<Word>
    ensures { option_map words.word_of result
        ≡ words.row_in (map words.word_of rows.now) word.now }
{
    for row in rows {
        if row.0 == word {
            return Some(*row);
        }
    }
    None
}

/// The row of a word, if it has one.
pub fn row_of(word: &str) -> Option<Word>
    ensures { option_map words.word_of result ≡ words.row_in table.words word.now }
{
    row_in(words(), word)
}
