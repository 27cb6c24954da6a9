//! How long the body is that a head states.
ghost use Rattle.std.specs.Prelude.{◌≤◌, ℕ, List, Option, IfSome};

/// What has to be known of the form of messages, beside where their heads may end.
pub trait Framing {
    /// What these bytes, which end in an empty line, say of the bytes that follow: how many they are;
    /// or nothing, where the message is answered without them.
    ghost States: { List ℕ → Option ℕ → Type 0 };

    /// The most bytes of a body.
    ghost limit: { ℕ };

    /// How many bytes follow this head. None where its message is answered by the head alone, and
    /// what follows isn't known.
    fn stated(head: &[u8]) -> Option<u32>
        ensures states { States head.now result }
        ensures small { IfSome result (λ n. n ≤ limit) };
}
