//! What commands answer.

use crate::rows::{Entry, QueueRow, RequestRow};
use hours_core::Minute;
use text_core::{Sequence, Text, Texts};

/// What an accepted command answers.
#[derive(Drop)]
pub enum Answer {
    /// It is done.
    Done,
    /// The request with this number was filed.
    Created(u32),
    /// The queues that the caller may see, in the order of their names.
    Queues(Sequence<QueueRow>),
    /// The request that was asked for.
    Shown(Shown),
    /// The requests of a queue that the caller may show, in the order of their numbers.
    Listed(Sequence<Line>),
    /// The entries that the caller may see of a request's history, in the order of their numbers.
    History(Sequence<Entry>),
    /// The requests that the caller may show and that are late, in the order of their due moments,
    /// and of their numbers where those are the same.
    Late(Sequence<LateLine>),
    /// What each owner has of the requests that the caller may show and that aren't inactive:
    /// nobody first, then in the order of the names.
    Workload(Sequence<Load>),
}

/// A request as a caller sees it.
#[derive(Drop)]
pub struct Shown {
    pub row: RequestRow,
    /// Its requestors, in the order of their bytes; and so are the next two lists.
    pub requestors: Texts,
    pub cc: Texts,
    pub admin_cc: Texts,
    /// When it is due, if a level says so.
    pub due: Option<Minute>,
    pub links: Links,
}

/// All that is told of a request at once: what `show` and `history` answer, and its queue.
#[derive(Drop)]
pub struct Dossier {
    pub shown: Shown,
    /// The entries that the caller may see, in the order of their numbers.
    pub entries: Sequence<Entry>,
    /// The queue that the request is in.
    pub queue: QueueRow,
}

/// The numbers of the requests that one is linked with, each list rising.
#[derive(Drop)]
pub struct Links {
    pub depends_on: Sequence<u32>,
    pub depended_on_by: Sequence<u32>,
    pub member_of: Sequence<u32>,
    pub has_member: Sequence<u32>,
    pub refers_to: Sequence<u32>,
    pub referred_to_by: Sequence<u32>,
}

/// A request as a queue's list tells of it.
#[derive(Drop)]
pub struct Line {
    pub id: u32,
    pub status: Text,
    /// Nobody owns it where this is absent.
    pub owner: Option<Text>,
    /// When it is due, if a level says so.
    pub due: Option<Minute>,
    pub subject: Text,
}

/// A request that is late.
#[derive(Drop)]
pub struct LateLine {
    pub id: u32,
    pub queue: Text,
    /// Nobody owns it where this is absent.
    pub owner: Option<Text>,
    /// When it was due.
    pub due: Minute,
    /// For how many minutes it has been late.
    pub late: u32,
}

/// How much an owner has to do.
#[derive(Drop)]
pub struct Load {
    /// Nobody's, where this is absent.
    pub owner: Option<Text>,
    /// How many requests aren't inactive.
    pub live: u32,
    /// How many of those are late.
    pub overdue: u32,
}
