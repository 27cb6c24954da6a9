//! The rows of a desk: queues, requests, watchers, links and entries.

ghost use Rattle.std.specs.Prelude.{◌≡◌, IfOk};
ghost use Rattle.desk_model.specs.Readings.History.{is_comment};
ghost use Rattle.desk_model.specs.Stays.{begins_stay};

use hours_core::Minute;
use std::alloc::AllocError;
use text_core::Text;

/// A queue, under its name.
#[derive(Debug, Drop)]
pub struct QueueRow {
    pub name: Text,
    /// The lifecycle that its requests follow.
    pub lifecycle: Text,
    /// The level that its requests start with.
    pub level: Option<Text>,
}

/// Whose answer is awaited.
#[derive(Clone, Copy, Debug)]
pub enum Turn {
    Desk,
    Requestor,
}

/// A request, under its number.
#[derive(Debug, Drop)]
pub struct RequestRow {
    pub id: u32,
    pub queue: Text,
    pub subject: Text,
    pub status: Text,
    /// Nobody owns it where this is absent.
    pub owner: Option<Text>,
    pub level: Option<Text>,
    pub created: Minute,
    /// When it was created or last left the inactive statuses.
    pub opened: Minute,
    pub turn: Turn,
    /// Since when it is that turn, or since it was last opened.
    pub since: Minute,
}

impl RequestRow {
    /// A copy with these in place of the row's own.
    pub(crate) fn with(
        &self,
        status: Text,
        owner: Option<Text>,
        level: Option<Text>,
    ) -> Result<RequestRow, AllocError>
        ensures { IfOk result (λ row. row
            ≡ record self.now { status = status; owner = owner; level = level }) }
    {
        let queue = self.queue.clone()?;
        let subject = self.subject.clone()?;
        Ok(RequestRow {
            queue,
            subject,
            status,
            owner,
            level,
            ..*self
        })
    }
}

impl Clone for RequestRow {
    ghost is_clone = { λ row copy. copy ≡ row };

    fn clone(&self) -> Result<RequestRow, AllocError> {
        self.with(
            self.status.clone()?,
            self.owner.clone()?,
            self.level.clone()?,
        )
    }
}

/// What a person is to a request besides its owner.
#[derive(Clone, Copy, Debug)]
pub enum WatchRole {
    Requestor,
    Cc,
    AdminCc,
}

/// A person in a role on a request.
#[derive(Debug, Drop)]
pub struct Watcher {
    pub id: u32,
    pub role: WatchRole,
    pub person: Text,
}

/// How a request is linked with another one.
#[derive(Clone, Copy, Debug, PartialEq, Eq, PartialOrd, Ord)]
pub enum LinkKind {
    DependsOn,
    MemberOf,
    RefersTo,
}

/// A link of a request, the source, with another one.
#[derive(Clone, Copy, Debug, PartialEq, Eq, PartialOrd, Ord)]
pub struct LinkRow {
    pub source: u32,
    pub kind: LinkKind,
    pub target: u32,
}

/// What an entry of a history tells.
#[derive(Clone, Copy, Debug)]
pub enum EntryKind {
    /// The request was filed: `body` is its first status.
    Create,
    /// Its status moved from `head` to `body`.
    Status,
    /// Its owner changed from `head` to `body`, where `Nobody` stands for none.
    Owner,
    /// Somebody replied with the text in `body`.
    Reply,
    /// Somebody commented with the text in `body`.
    Comment,
    /// The person in `body` was put into the role in `head`.
    Watch,
    /// The person in `body` was taken out of the role in `head`.
    Unwatch,
    /// The request was linked, in the kind in `head`, with the one whose number is in `body`.
    Link,
    /// Such a link was taken away.
    Unlink,
    /// Its level changed from `head` to `body`, where `-` stands for none.
    Level,
}

impl EntryKind {
    /// Whether the entry is a comment.
    pub fn is_comment(self) -> bool
        ensures { result ≡ is_comment self }
    {
        match self {
            EntryKind::Comment => true,
            _ => false,
        }
    }

    /// Whether the entry begins a stay: one that files the request or moves its status.
    pub fn begins_stay(self) -> bool
        ensures { result ≡ begins_stay self }
    {
        match self {
            EntryKind::Create => true,
            EntryKind::Status => true,
            _ => false,
        }
    }
}

/// An entry of a request's history. The entries of a request are numbered from 1 without gaps.
#[derive(Debug, Drop)]
pub struct Entry {
    pub id: u32,
    pub number: u32,
    pub moment: Minute,
    pub actor: Text,
    pub kind: EntryKind,
    pub head: Text,
    pub body: Text,
}
