//! How long a body may be.
ghost use Rattle.std.specs.Prelude.{◌≡◌, ◌≤◌};
ghost use Rattle.message_core.specs.Limits as limits;

/// How long the body of a message may be.
#[derive(Clone, Copy)]
pub enum BodyLimit {
    /// At most 65,536 bytes.
    Plain,
    /// At most 262,144 bytes where the target begins with `/desk/`, and else 65,536.
    ByPlace,
}

/// The most bytes of a body, but for places that take long ones.
const MAX_BODY: u32 = 65_536;

/// The most bytes of a body at a place that takes long ones.
const MAX_LONG_BODY: u32 = 262_144;

/// What the target of such a place begins with.
const LONG: &str = "/desk/";

impl BodyLimit {
    /// The most bytes that the body of a message with this target may have.
    pub(crate) fn at(self, target: &[u8]) -> u32
        ensures limit { result ≡ limits.limit_at self target.now }
        ensures most { result ≤ limits.most_of self }
        ensures small { result ≤ 262144 }
    {
        match self {
            BodyLimit::Plain => MAX_BODY,
            BodyLimit::ByPlace => {
                if takes_long_bodies(target) {
                    MAX_LONG_BODY
                } else {
                    MAX_BODY
                }
            }
        }
    }
}

/// Whether the target begins with `/desk/`.
fn takes_long_bodies(target: &[u8]) -> bool
    ensures { result ≡ limits.takes_long_bodies target.now }
{
    target.len() >= LONG.len() && &target[..LONG.len()] == LONG.as_bytes()
}
