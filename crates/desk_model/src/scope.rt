//! Which part of the desk a command is about, and which it looks at.

use crate::rows::LinkRow;
use text_core::Text;

/// What a command that only reads is about.
#[derive(Drop)]
pub enum Topic<'c> {
    /// The whole desk.
    Desk,
    /// The queue of that name.
    Queue(&'c Text),
    /// The request with that number.
    Request(u32),
}

/// What a command looks at on a desk before it is decided.
#[derive(Drop)]
pub enum Scope<'c> {
    Nothing,
    /// A queue.
    QueueAlone(&'c Text),
    /// A queue, and how many queues and requests there are.
    Queue(&'c Text),
    /// A request and its queue.
    RequestAlone(u32),
    /// A request, its queue, and its stays.
    Request(u32),
    /// A request, its queue, its stays, and what it depends on.
    Dependencies(u32),
    /// A request, its queue, the request at the other end of a link, and whether the link is there.
    Link(LinkRow),
}
