//! A message is read off a stream.
ghost use Rattle.std.specs.Prelude.{◌≡◌, ◌≢◌, ◌≤◌, ◌+◌, ◌||◌, Err};
ghost use Rattle.stream_core.specs.Seen.{HaveOneReader, has_read_failed, left_in, reads_of};
ghost use Rattle.stream_core.specs.Streams.{ConsumesAtMost};
ghost use Rattle.message_core.specs.Fault.{tells_failed_read};
ghost use Rattle.message_core.specs.Message.{Reads};

use crate::fault::WireFault;
use crate::limits::BodyLimit;
use crate::request::read_request_counted;
use std::alloc::Global;
use std::io::Read;
use stream_core::CountedReader;
use text_core::{Sequence, Text};

/// What was sent.
#[derive(Drop)]
pub struct Message {
    /// The method, as it was sent.
    pub method: Sequence<u8>,
    /// The path, with what follows it up to the version.
    pub target: Sequence<u8>,
    /// The value of the one `Desk-Token` line; none where there is no such line, more than one, or
    /// a value that isn't UTF-8.
    pub token: Option<Text>,
    /// What follows the head, as long as the head states.
    pub body: Sequence<u8>,
}

/// The message with which the stream of a reader begins; all after its last byte is left to the
/// reader.
///
/// `BadHead` where the stream doesn't begin with the head of a request of HTTP/1.0 or 1.1 of at
/// most 8,192 bytes and 32 header lines. `BadLength` where the head has a `Transfer-Encoding`, two
/// `Content-Length` lines, or one whose value isn't digits, and `TooLong` where that is over 65,536
/// (without such a line the body is empty): all after the head is left. `Truncated` where the
/// stream ends before the body does. `Read` where a read failed, also one that was interrupted, and
/// `NoMemory` may stand in place of any other answer: a part of the stream has then been taken.
///
/// A head is read a byte at a time, so a reader that asks a system each time should stand behind a
/// buffer.
pub fn read_message<R: Read>(alloc: Global, reader: &mut R) -> Result<Message, WireFault>
    ensures read { result ≢ Err WireFault.Read → result ≢ Err WireFault.NoMemory
        → Reads (R.remaining reader.old) (R.remaining reader.new) result }
    ensures taken { ConsumesAtMost (R.remaining reader.old) (R.remaining reader.new) 73728 }
{
    let mut reader = CountedReader::new(reader);
    read_message_counted(alloc, &mut reader)
}

/// Reads a message as `read_message` does, by a reader that counts. At most 73,728 reads are made,
/// and the answer is `Read` exactly where one of them failed.
pub fn read_message_counted<R: Read>(
    alloc: Global,
    reader: &mut CountedReader<'_, R>,
) -> Result<Message, WireFault>
    ensures one { HaveOneReader reader.new reader.old }
    ensures read { result ≢ Err WireFault.Read → result ≢ Err WireFault.NoMemory
        → Reads (left_in R.remaining reader.old) (left_in R.remaining reader.new) result }
    ensures taken { ConsumesAtMost (left_in R.remaining reader.old)
        (left_in R.remaining reader.new) 73728 }
    ensures failed { has_read_failed reader.new
        ≡ (tells_failed_read result || has_read_failed reader.old) }
    ensures reads { reads_of reader.new ≤ reads_of reader.old + 73728 }
{
    match read_request_counted(alloc, reader, BodyLimit::Plain) {
        Ok(request) => Ok(request.message),
        Err(fault) => Err(fault),
    }
}
