//! The forms of names, rights, subjects and texts.

ghost use Rattle.std.specs.Prelude.{◌≡◌, ◌||◌, not, ◌==◌, length};
ghost use Rattle.std.specs.List.{list_all};
ghost use Rattle.std.specs.Str.{chars};
ghost use Rattle.text_core.specs.Form as form;

/// The most bytes of a name of a person, a group, a queue, a status, a lifecycle, a calendar or a
/// level.
pub const MAX_NAME_BYTES: usize = 20;

/// The most letters of a right's name.
pub const MAX_RIGHT_LETTERS: usize = 32;

/// The most characters of a subject.
pub const MAX_SUBJECT_CHARACTERS: usize = 200;

/// The most characters of the text of a reply or a comment.
pub const MAX_TEXT_CHARACTERS: usize = 20_000;

/// Whether the text is a name: 1 to 20 bytes of `a` to `z`, `0` to `9`, `-` and `_`, the first a
/// letter.
pub fn is_name(text: &str) -> bool
    ensures { result ≡ form.is_name text.now }
{
    match text.as_bytes() {
        [] => false,
        [first, rest @ ..] => {
            is_small_letter(*first) && text.len() <= MAX_NAME_BYTES && has_name_bytes(rest)
        }
    }
}

/// Whether the text is a right's name: 1 to 32 ASCII letters.
pub fn is_right_name(text: &str) -> bool
    ensures { result ≡ form.is_right_name text.now }
{
    let length = text.len();
    1 <= length && length <= MAX_RIGHT_LETTERS && has_letters(text.as_bytes())
}

/// Whether the text is a subject: 1 to 200 characters, none of them a control character of ASCII.
pub fn is_subject(text: &str) -> bool
    ensures { result ≡ form.is_subject text.now }
{
    let length = character_count(text);
    1 <= length && length <= MAX_SUBJECT_CHARACTERS && is_on_one_line(text)
}

/// Whether the text is one of a reply or a comment: 1 to 20,000 characters, where the only control
/// characters of ASCII are the line feed and the tab.
pub fn is_text(text: &str) -> bool
    ensures { result ≡ form.is_text text.now }
{
    let length = character_count(text);
    1 <= length && length <= MAX_TEXT_CHARACTERS && is_on_lines(text)
}

/// Whether the byte is `a` to `z` or `A` to `Z`.
pub fn is_letter(byte: u8) -> bool
    ensures { result ≡ form.is_letter byte }
{
    is_small_letter(byte) || is_large_letter(byte)
}

fn is_small_letter(byte: u8) -> bool
    ensures { result ≡ form.is_small_letter byte }
{
    b'a' <= byte && byte <= b'z'
}

fn is_large_letter(byte: u8) -> bool
    ensures { result ≡ form.is_large_letter byte }
{
    b'A' <= byte && byte <= b'Z'
}

/// Whether the byte is `0` to `9`.
pub fn is_digit(byte: u8) -> bool
    ensures { result ≡ form.is_digit byte }
{
    b'0' <= byte && byte <= b'9'
}

fn is_name_byte(byte: u8) -> bool
    ensures { result ≡ form.is_name_byte byte }
{
    is_small_letter(byte) || is_digit(byte) || byte == b'-' || byte == b'_'
}

fn has_name_bytes(bytes: &[u8]) -> bool
    ensures { result ≡ list_all form.is_name_byte bytes.now }
{
    bytes.iter().all(|b| is_name_byte(*b))
}

fn has_letters(bytes: &[u8]) -> bool
    ensures { result ≡ list_all form.is_letter bytes.now }
{
    bytes.iter().all(|b| is_letter(*b))
}

fn is_control(character: char) -> bool
    ensures { result ≡ form.is_control character }
{
    character < ' ' || character == '\u{7f}'
}

fn character_count(text: &str) -> usize
    ensures { result ≡ length (chars text.now) }
{
    text.chars().count()
}

fn is_on_one_line(text: &str) -> bool
    ensures { result ≡ list_all form.is_printed (chars text.now) }
{
    text.chars().all(|c| !is_control(c))
}

fn is_on_lines(text: &str) -> bool
    ensures { result ≡ list_all form.is_printed_or_break (chars text.now) }
{
    text.chars()
        .all(|c| !is_control(c) || c == '\n' || c == '\t')
}
