//! What a message expects before its body is sent.
ghost use Rattle.std.specs.Prelude.{◌≡◌, ◌≤◌, IfSome, MatchBool};
ghost use Rattle.message_core.specs.Reply.{bytes_of};
ghost use Rattle.http_rules.specs.Expectation as form;
ghost use Rattle.http_rules.specs.Expectation.{IsExpecting, StatesByRules};

use crate::head::{is_head, minor_of};
use message_core::{BodyLimit, header_value, stated_body};

/// Whether the bytes are a head of HTTP/1.1 with a line `Expect`: whoever sends it may wait for a
/// word before the body. Takes no memory.
pub fn is_expecting(bytes: &[u8]) -> bool
    ensures { MatchBool result (IsExpecting bytes.now) (¬ (IsExpecting bytes.now)) }
{
    is_head(bytes) && minor_of(bytes) == 1 && header_value(bytes, "Expect").is_some()
}

/// How many bytes follow a head, within the limit of its place. None where it is answered without
/// them: it expects something, or no body makes it a message. Takes no memory.
pub fn stated_by_rules(head: &[u8]) -> Option<u32>
    ensures states { StatesByRules head.now result }
    ensures small { IfSome result (λ n. n ≤ 262144) }
{
    if is_expecting(head) {
        None
    } else {
        stated_body(head, BodyLimit::ByPlace)
    }
}

/// The reply to a message that expects something: it may be sent again without that, and its body
/// with it. For this no memory is needed.
pub fn expectation_failed() -> &'static [u8]
    ensures { result.now ≡ bytes_of form.expectation_failed }
{
    b"HTTP/1.1 417 Expectation Failed\r\n\
      Content-Type: text/plain; charset=utf-8\r\n\
      Content-Length: 19\r\n\
      Connection: close\r\n\
      \r\n\
      expectation failed\n"
}
