//! What is sought, and what is found.

ghost use Rattle.std.specs.Prelude.{◌≡◌};
ghost use Rattle.find_core.specs.Places as places;

use desk_core::Turn;
use hours_core::Minute;
use lifecycle_core::Class;
use text_core::{Sequence, Text, Texts};

/// What is sought among the requests that a caller may show: those that meet all of it.
#[derive(Drop)]
pub struct Search {
    /// Each of them stands in the subject, in large or small letters of any script: both are folded
    /// as Unicode does by default.
    pub words: Texts,
    /// A word may also stand in the text of a reply or a comment that the caller may see.
    pub in_replies: bool,
    /// The queue, or any.
    pub queue: Option<Text>,
    pub status: StatusAsked,
    pub owner: OwnerAsked,
    /// One of the requestors, or anybody.
    pub requestor: Option<Text>,
    /// Only what waits for the desk, or for who asked; what is closed waits for nobody.
    pub turn: Option<Turn>,
    /// Only what was due before the moment of the search.
    pub late: bool,
    /// Only what was filed at this moment or later.
    pub filed_from: Option<Minute>,
    /// Only what was filed before this moment.
    pub filed_to: Option<Minute>,
    pub order: Order,
    /// The other way round.
    pub descending: bool,
}

/// Which statuses are sought.
#[derive(Drop)]
pub enum StatusAsked {
    Any,
    One(Text),
    /// Those that are initial or active.
    Open,
    Inactive,
}

/// Whose requests are sought.
#[derive(Drop)]
pub enum OwnerAsked {
    Anyone,
    Nobody,
    Person(Text),
}

/// By what the requests that are found are put in order, from the lowest on. Where it is the same,
/// their numbers count.
#[derive(Clone, Copy, Debug)]
pub enum Order {
    ByNumber,
    /// By the due moment; what has none comes after all others.
    ByDue,
    /// By the moment of the last entry that the caller may see.
    ByLast,
}

/// Where a request stands in an order. There may be no request at a place.
#[derive(Clone, Copy, Debug)]
pub struct Place {
    /// Its number, its due moment or that of its last entry. Without a due moment it is 2^32.
    pub key: u64,
    pub id: u32,
}

/// A request that was found.
#[derive(Drop)]
pub struct Found {
    pub id: u32,
    pub queue: Text,
    pub status: Text,
    /// The class of the status in the lifecycle of the queue, if it has it.
    pub class: Option<Class>,
    /// Nobody owns it where this is absent.
    pub owner: Option<Text>,
    /// Whom it waits for, while it is open.
    pub turn: Turn,
    /// When it is due, if a level says so.
    pub due: Option<Minute>,
    pub subject: Text,
    /// In the order of their bytes.
    pub requestors: Texts,
    /// When it was filed.
    pub filed: Minute,
    /// When the last entry was made that the caller may see.
    pub last: Minute,
}

/// What was found.
#[derive(Drop)]
pub struct Findings {
    /// Those of a page, in their order.
    pub rows: Sequence<Found>,
    /// How many there are on all pages.
    pub count: u32,
}

impl Found {
    /// Where it stands in this order.
    pub fn place(&self, order: Order) -> Place
        ensures { result ≡ places.place_of order self.now }
    {
        Place {
            key: match order {
                Order::ByNumber => u64::from(self.id),
                Order::ByDue => key_of_due(self.due),
                Order::ByLast => u64::from(self.last.get()),
            },
            id: self.id,
        }
    }
}

/// What stands for a due moment in an order.
pub(crate) fn key_of_due(due: Option<Minute>) -> u64
    ensures { result ≡ places.key_of_due due }
{
    match due {
        Some(due) => u64::from(due.get()),
        None => 4_294_967_296,
    }
}
