//! The head of a message.
ghost use Rattle.std.specs.Prelude.{◌≡◌, [], true};
ghost use Rattle.httparse.specs.Grammar.{RequestHead};
ghost use Rattle.message_core.specs.Head.{IsHead, StartsWith};

use httparse::Status;
use httparse::spans::{EMPTY_HEADER_SPAN, parse_request};

/// The most bytes of a head.
const MOST: usize = 8_192;

/// The minor version that a head tells: 1 of HTTP/1.1.
pub(crate) fn minor_of(head: &[u8]) -> u8
    ensures { (h : RequestHead) → StartsWith head.now h [] → result ≡ h.minor }
{
    let mut room = [EMPTY_HEADER_SPAN; 32];
    match parse_request(head, &mut room) {
        Ok(Status::Complete(spans)) => spans.version,
        _ => 0,
    }
}

/// Whether the bytes are a head of a message, and nothing else.
pub(crate) fn is_head(bytes: &[u8]) -> bool
    ensures yes { result ≡ true → IsHead bytes.now }
    ensures all { (h : RequestHead) → StartsWith bytes.now h [] → result ≡ true }
{
    let mut room = [EMPTY_HEADER_SPAN; 32];
    match parse_request(bytes, &mut room) {
        Ok(Status::Complete(spans)) => spans.len == bytes.len() && bytes.len() <= MOST,
        _ => false,
    }
}
