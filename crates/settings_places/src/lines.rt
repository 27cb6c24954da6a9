//! Lines and columns of a settings text.

ghost use Rattle.std.specs.Prelude.{◌≡◌};
ghost use Rattle.settings_places.specs.Lines as spec;

/// A line and a column of a text, both from 1. A column counts characters.
#[derive(Clone, Copy)]
pub struct LineColumn {
    pub line: usize,
    pub column: usize,
}

/// The line and the column of the byte at this place, or of the end where the text ends before it.
pub fn line_column(text: &[u8], at: usize) -> LineColumn
    ensures line { result.line ≡ spec.line_at text.now at }
    ensures column { result.column ≡ spec.column_at text.now at }
{
    LineColumn {
        line: line_at(text, at),
        column: column_at(text, at),
    }
}

/// The number, from 1, of the line in which a text has the byte at this place, or in which it ends
/// before that.
fn line_at(text: &[u8], at: usize) -> usize
    ensures { result ≡ spec.line_at text.now at }
{
    let before = &text[..at.min(text.len())];
    before.iter().filter(|byte| **byte == b'\n').count() + 1
}

/// The number, from 1, of the character of its line that begins at this place.
fn column_at(text: &[u8], at: usize) -> usize
    ensures { result ≡ spec.column_at text.now at }
{
    let before = &text[..at.min(text.len())];
    let mut column = 1;
    for byte in before {
        if *byte == b'\n' {
            column = 1;
        } else if begins_character(*byte) {
            column += 1;
        }
    }
    column
}

/// Whether the byte begins a character in UTF-8.
fn begins_character(byte: u8) -> bool
    ensures { result ≡ spec.begins_character byte }
{
    byte < 128 || byte >= 192
}
