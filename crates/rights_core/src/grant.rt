//! Grants, and whom they are for.

use crate::role::Role;
use text_core::Text;

/// Whom a grant is for.
#[derive(Clone, Drop)]
pub enum Subject {
    /// Every person.
    Everyone,
    /// The person of this name.
    Person(Text),
    /// The members of the group of this name, and those of the groups that are members of it.
    Group(Text),
    /// Whoever has the role on the request.
    Role(Role),
}

/// A right that is given to a subject on one queue, or on all.
#[derive(Clone, Drop)]
pub struct Grant {
    pub right: Text,
    pub subject: Subject,
    /// The one queue, which need not be there. None means all queues.
    pub queue: Option<Text>,
}
