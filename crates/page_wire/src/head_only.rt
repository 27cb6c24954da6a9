//! The reply to a HEAD: that to a GET, up to its first empty line.
ghost use Rattle.std.specs.Prelude.{◌≡◌, ◌≤◌, IsTrue, codes, length, take};
ghost use Rattle.std.specs.Str.{bytes_eq};
ghost use Rattle.page_wire.specs.HeadOnly as form;

/// Leaves of a reply its head alone, if that is all that is asked for.
#[tactic(auto, using(crate::proofs::HeadOnly::taken))]
pub(crate) fn tell(head_only: bool, reply: &mut Vec<u8>)
    ensures { reply.new.items ≡ form.told_of head_only reply.old.items }
{
    if head_only {
        let length = head_in(reply.as_slice()).len();
        reply.truncate(length);
    }
}

/// The reply up to its first empty line, and that line.
fn head_in(reply: &[u8]) -> &[u8]
    ensures { result.now ≡ form.head_in reply.now }
{
    for start in 0..reply.len() {
        if begins_with_two_ends(&reply[start..]) {
            return &reply[..start + 4];
        }
    }
    reply
}

/// Whether they begin with two line ends.
fn begins_with_two_ends(bytes: &[u8]) -> bool
    ensures is { result ≡ bytes_eq (take 4 bytes.now) (codes "\r\n\r\n") }
    ensures long { IsTrue result → 4 ≤ length bytes.now }
{
    bytes.len() >= 4 && &bytes[..4] == b"\r\n\r\n".as_slice()
}
