//! What stands at an argument of a command.

/// What stands at an argument, and where it goes.
#[derive(Clone, Copy)]
pub enum Kind {
    /// The request that is meant.
    Id,
    /// The request at the other end of a link.
    Other,
    /// The queue that is meant.
    Queue,
    /// A name or a text.
    Text,
    Role,
    /// A kind of link, by its own name or by that of its inverse.
    Link,
    /// A text that may be left out.
    Maybe,
    /// The same; among words it follows two hyphens and its key.
    Named,
    /// Any number of texts.
    Many,
    /// Among words a hyphen and this letter; it is nowhere else.
    Flag(char),
}

/// An argument by its key.
#[derive(Clone, Copy)]
pub struct Arg(pub &'static str, pub Kind);
