//! The bytes of a reply.
ghost use Rattle.std.specs.Prelude.{◌≡◌};
ghost use Rattle.connection_core.specs.Reply.{bytes_of};

/// The bytes of a reply.
#[derive(Drop)]
pub enum Reply {
    /// They were made for one message.
    Made(Vec<u8>),
    /// They are the same for every message, and take no memory.
    Fixed(&'static [u8]),
}

impl Reply {
    /// The bytes.
    pub fn bytes(&self) -> &[u8]
        ensures { result.now ≡ bytes_of self.now }
    {
        match self {
            Reply::Made(bytes) => bytes.as_slice(),
            Reply::Fixed(bytes) => bytes,
        }
    }
}
