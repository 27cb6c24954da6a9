//! The commands of the desk.

ghost use Rattle.std.specs.Prelude.{◌≡◌};
ghost use Rattle.std.specs.Option.{option_map};
ghost use Rattle.desk_model.specs.Commands.{plan_of};
ghost use Rattle.desk_model.specs.Desk.{Desk};
ghost use Rattle.desk_model.specs.Plan.{is_reading, topic_of};
ghost use Rattle.desk_model.specs.Scope.{seen_in, topic_named};
ghost use Rattle.desk_model.specs.Step.{facts_of};

use crate::rows::{LinkKind, LinkRow, WatchRole};
use crate::scope::{Scope, Topic};
use text_core::{Text, Texts};

/// What a caller asks of the desk. Names and texts are as they were given: a command may be refused
/// for each.
#[derive(Drop)]
pub enum Command {
    /// Opens a queue whose requests follow a lifecycle and start with a level, if one is given.
    OpenQueue {
        queue: Text,
        lifecycle: Text,
        level: Option<Text>,
    },
    /// Files a request in a queue, in the status given or the lifecycle's status on create. Without
    /// requestors the caller is the one.
    Create {
        queue: Text,
        subject: Text,
        status: Option<Text>,
        requestors: Texts,
    },
    /// Moves a request to another status.
    SetStatus {
        id: u32,
        status: Text,
    },
    /// Makes the caller the owner of a request that nobody owns.
    Take {
        id: u32,
    },
    /// Makes the caller the owner of a request that another person owns.
    Steal {
        id: u32,
    },
    /// Leaves a request that the caller owns without an owner.
    Untake {
        id: u32,
    },
    /// Makes a person the owner of a request.
    Give {
        id: u32,
        person: Text,
    },
    /// Replies to a request, which may open it again.
    Reply {
        id: u32,
        text: Text,
    },
    /// Comments on a request.
    Comment {
        id: u32,
        text: Text,
    },
    /// Puts a person into a role on a request.
    Watch {
        id: u32,
        role: WatchRole,
        person: Text,
    },
    /// Takes a person out of a role on a request.
    Unwatch {
        id: u32,
        role: WatchRole,
        person: Text,
    },
    /// Links a request with another one.
    Link {
        id: u32,
        kind: LinkKind,
        other: u32,
    },
    /// Takes away the link of a request with another one.
    Unlink {
        id: u32,
        kind: LinkKind,
        other: u32,
    },
    /// Gives a request another level, or none.
    SetLevel {
        id: u32,
        level: Option<Text>,
    },
    /// Lists the queues that the caller may see.
    Queues,
    /// Shows a request.
    Show {
        id: u32,
    },
    /// Lists the requests of a queue.
    List {
        queue: Text,
    },
    /// Tells the history of a request.
    History {
        id: u32,
    },
    /// Lists the requests that are late.
    Overdue,
    /// Tells how many requests each owner has, and how many of them are late.
    Workload,
}

impl Command {
    /// What the command is about, if it only reads.
    pub fn topic(&self) -> Option<Topic<'_>>
        ensures { option_map topic_named result ≡ topic_of (plan_of self.now) }
    {
        match self {
            Command::OpenQueue { .. } => None,
            Command::Create { .. } => None,
            Command::SetStatus { .. } => None,
            Command::Take { .. } => None,
            Command::Steal { .. } => None,
            Command::Untake { .. } => None,
            Command::Give { .. } => None,
            Command::Reply { .. } => None,
            Command::Comment { .. } => None,
            Command::Watch { .. } => None,
            Command::Unwatch { .. } => None,
            Command::Link { .. } => None,
            Command::Unlink { .. } => None,
            Command::SetLevel { .. } => None,
            Command::Queues => Some(Topic::Desk),
            Command::Show { id } => Some(Topic::Request(*id)),
            Command::List { queue } => Some(Topic::Queue(queue)),
            Command::History { id } => Some(Topic::Request(*id)),
            Command::Overdue => Some(Topic::Desk),
            Command::Workload => Some(Topic::Desk),
        }
    }

    /// Whether the command only reads.
    pub fn is_reading(&self) -> bool
        ensures { result ≡ is_reading (plan_of self.now) }
    {
        self.topic().is_some()
    }

    /// What the command looks at on a desk.
    pub fn scope(&self) -> Scope<'_>
        ensures { (desk : Desk) → seen_in result desk ≡ facts_of self.now desk }
    {
        match self {
            Command::OpenQueue { queue, .. } => Scope::Queue(queue),
            Command::Create { queue, .. } => Scope::Queue(queue),
            Command::SetStatus { id, .. } => Scope::Dependencies(*id),
            Command::Take { id } => Scope::Request(*id),
            Command::Steal { id } => Scope::Request(*id),
            Command::Untake { id } => Scope::Request(*id),
            Command::Give { id, .. } => Scope::Request(*id),
            Command::Reply { id, .. } => Scope::Request(*id),
            Command::Comment { id, .. } => Scope::RequestAlone(*id),
            Command::Watch { id, .. } => Scope::RequestAlone(*id),
            Command::Unwatch { id, .. } => Scope::RequestAlone(*id),
            Command::Link { id, kind, other } => Scope::Link(LinkRow {
                source: *id,
                kind: *kind,
                target: *other,
            }),
            Command::Unlink { id, kind, other } => Scope::Link(LinkRow {
                source: *id,
                kind: *kind,
                target: *other,
            }),
            Command::SetLevel { id, .. } => Scope::Request(*id),
            Command::Queues => Scope::Nothing,
            Command::Show { id } => Scope::Request(*id),
            Command::List { queue } => Scope::QueueAlone(queue),
            Command::History { id } => Scope::Request(*id),
            Command::Overdue => Scope::Nothing,
            Command::Workload => Scope::Nothing,
        }
    }
}
