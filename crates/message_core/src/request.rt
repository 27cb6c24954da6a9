//! A message is read off a stream with its head, whose header lines say more than the message has.
ghost use Rattle.std.specs.Prelude.{◌≡◌, ◌≢◌, ◌≤◌, ◌+◌, ◌||◌, [], Option, List, ℕ, Err};
ghost use Rattle.std.specs.Prelude.{All, length, map, IfOk};
ghost use Rattle.std.specs.Io.KnownBytes.{Consumes};
ghost use Rattle.std.specs.Option.{option_map};
ghost use Rattle.httparse.specs.Grammar.{RequestHead};
ghost use Rattle.httparse.specs.Spans.{IsHeaderWithin, header_bytes};
ghost use Rattle.stream_core.specs.Seen.{HaveOneReader, has_read_failed, left_in, reads_of};
ghost use Rattle.stream_core.specs.Streams.{ConsumesAtMost};
ghost use Rattle.message_core.specs.Fault.{tells_failed_read};
ghost use Rattle.message_core.specs.Head.{IsHead, StartsWith};
ghost use Rattle.message_core.specs.Limits as limits;
ghost use Rattle.message_core.specs.Request as form;
ghost use Rattle.message_core.specs.Request.{ReadsRequested, ReadsWithHead};

use crate::body::take_body;
use crate::fault::WireFault;
use crate::head::take_head;
use crate::heading::{Heading, heading_of};
use crate::limits::BodyLimit;
use crate::message::Message;
use std::alloc::Global;
use std::io::Read;
use stream_core::CountedReader;
use text_core::Sequence;

/// What was sent, with its head.
#[derive(Drop)]
pub struct Request {
    pub message: Message,
    /// The bytes of the head: `header_value` and `header_values` tell what its lines say.
    pub head: Sequence<u8>,
}

/// The message with which the stream of a reader begins, as `read_message` reads it, with its head.
/// But `TooLong` comes where the body is over 262,144 bytes and the target begins with `/desk/`, or
/// over 65,536 and it doesn't.
pub fn read_request<R: Read>(alloc: Global, reader: &mut R) -> Result<Request, WireFault>
    ensures read { result ≢ Err WireFault.Read → result ≢ Err WireFault.NoMemory
        → ReadsRequested BodyLimit.ByPlace (R.remaining reader.old) (R.remaining reader.new) result }
    ensures taken { ConsumesAtMost (R.remaining reader.old) (R.remaining reader.new) 270336 }
{
    let mut reader = CountedReader::new(reader);
    read_request_counted(alloc, &mut reader, BodyLimit::ByPlace)
}

/// Reads a message with its head, whose body is within the limit, by a reader that counts. A read is
/// made for a byte at most, so at most 8,192 and the most that a body may have; the answer is `Read`
/// exactly where one of them failed.
pub fn read_request_counted<R: Read>(
    alloc: Global,
    reader: &mut CountedReader<'_, R>,
    limit: BodyLimit,
) -> Result<Request, WireFault>
    ensures one { HaveOneReader reader.new reader.old }
    ensures read { result ≢ Err WireFault.Read → result ≢ Err WireFault.NoMemory
        → ReadsRequested limit (left_in R.remaining reader.old) (left_in R.remaining reader.new)
        result }
    ensures taken { ConsumesAtMost (left_in R.remaining reader.old)
        (left_in R.remaining reader.new) (8192 + limits.most_of limit) }
    ensures failed { has_read_failed reader.new
        ≡ (tells_failed_read result || has_read_failed reader.old) }
    ensures reads { reads_of reader.new ≤ reads_of reader.old + (8192 + limits.most_of limit) }
{
    match take_head(alloc, reader) {
        Ok(head) => read_after(alloc, reader, limit, head),
        Err(fault) => Err(fault),
    }
}

/// The message with this head, whose body follows.
fn read_after<R: Read>(
    alloc: Global,
    reader: &mut CountedReader<'_, R>,
    limit: BodyLimit,
    head: Vec<u8>,
) -> Result<Request, WireFault>
    requires { IsHead head.items }
    ensures one { HaveOneReader reader.new reader.old }
    ensures read { (had : Option (List ℕ)) → Consumes had (left_in R.remaining reader.old) head.items
        → result ≢ Err WireFault.Read → result ≢ Err WireFault.NoMemory
        → ReadsWithHead limit had (left_in R.remaining reader.new) result }
    ensures taken { ConsumesAtMost (left_in R.remaining reader.old)
        (left_in R.remaining reader.new) (limits.most_of limit) }
    ensures failed { has_read_failed reader.new
        ≡ (tells_failed_read result || has_read_failed reader.old) }
    ensures reads { reads_of reader.new ≤ reads_of reader.old + limits.most_of limit }
{
    match heading_of(alloc, head.as_slice(), limit) {
        Ok(heading) => match take_body(alloc, reader, heading.length) {
            Ok(body) => Ok(with_head(with_body(heading, body), head)),
            Err(fault) => Err(fault),
        },
        Err(fault) => Err(fault),
    }
}

fn with_body(heading: Heading, body: Vec<u8>) -> Message
    ensures method { result.method ≡ heading.method }
    ensures target { result.target ≡ heading.target }
    ensures token { result.token ≡ heading.token }
    ensures body { result.body ≡ body.items }
{
    Message {
        method: heading.method,
        target: heading.target,
        token: heading.token,
        body: Sequence::from(body),
    }
}

fn with_head(message: Message, head: Vec<u8>) -> Request
    ensures message { result.message ≡ message }
    ensures head { result.head ≡ head.items }
{
    Request {
        message,
        head: Sequence::from(head),
    }
}
