//! The answer to a line, printed with its number.
ghost use Rattle.std.specs.Prelude.{◌≡◌, ◌++◌, if◌then◌else◌, codes, decimal};
ghost use Rattle.stream_core.specs.Seen.{HaveOneWriter};
ghost use Rattle.stream_core.specs.Written.{Prints};
ghost use Rattle.load_core.specs.Load.{begins_refusal, is_bad_words, is_done, is_refused};
ghost use Rattle.load_core.specs.Load.{is_shown, numbered, shown};

use itoa::Buffer;
use std::io::Write;
use stream_core::CountedWriter;

/// Prints the answer to a line with its number, if it is to be shown.
pub(crate) fn put_answer<W: Write>(
    output: &mut CountedWriter<'_, W>,
    all: bool,
    number: u64,
    text: &[u8],
)
    ensures same_writer { HaveOneWriter output.new output.old }
    ensures printed { Prints W.contents output.old output.new (shown all number text.now) }
{
    if is_shown(all, text) {
        put_numbered(output, number, text);
    }
}

/// Prints a number and a text.
fn put_numbered<W: Write>(output: &mut CountedWriter<'_, W>, number: u64, text: &[u8])
    ensures same_writer { HaveOneWriter output.new output.old }
    ensures printed { Prints W.contents output.old output.new (numbered number text.now) }
{
    let mut buffer = Buffer::new();
    output.put(buffer.format(number).as_bytes());
    output.put(b": ");
    output.put(text);
}

/// Whether an answer is shown: each but nothing, and where not all are, only one that tells more
/// than that a command is done.
fn is_shown(all: bool, text: &[u8]) -> bool
    ensures { result ≡ is_shown all text.now }
{
    !text.is_empty() && (all || !is_done(text))
}

/// Whether an answer is `ok`, or the number of a new request.
pub(crate) fn is_done(text: &[u8]) -> bool
    ensures { result ≡ is_done text.now }
{
    text == b"ok\n".as_slice() || text.starts_with(b"request ")
}

/// Whether an answer says that the line was refused, or that it spells no command.
pub(crate) fn is_refused(text: &[u8]) -> bool
    ensures { result ≡ is_refused text.now }
{
    is_bad_words(text) || begins_refusal(text)
}

fn is_bad_words(text: &[u8]) -> bool
    ensures { result ≡ is_bad_words text.now }
{
    text == b"bad words\n".as_slice()
}

fn begins_refusal(text: &[u8]) -> bool
    ensures { result ≡ begins_refusal text.now }
{
    text.starts_with(b"refused ")
}
