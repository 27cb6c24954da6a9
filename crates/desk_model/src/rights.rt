//! What a person may see, and the roles that a person has on a request.

ghost use Rattle.std.specs.Prelude.{◌≡◌};
ghost use Rattle.desk_model.specs.Rights as rights;
ghost use Rattle.desk_model.specs.Watchers as words;

use crate::facts::SeenRequest;
use crate::rows::{QueueRow, RequestRow, WatchRole, Watcher};
use rights_core::{Roles, right};
use settings_core::Settings;

/// Whether a person may show a request: whether the right to do so is held with the person's roles
/// on it. Of the watchers only those of this request count.
#[tactic(auto, unfolding(rights_core::specs::Right::show_ticket))]
pub fn may_show(
    settings: &Settings,
    person: &str,
    request: &RequestRow,
    watchers: &[Watcher],
) -> bool
    ensures { result ≡ words.may_show_by settings.now person.now request.now watchers.now }
{
    let roles = roles_among(person, request, watchers);
    settings
        .people()
        .holds(person, right::SHOW_TICKET, request.queue.as_str(), roles)
}

/// Whether a person may see a queue: whether the right to do so is held on it. Nobody has a role on
/// a queue.
#[tactic(auto, unfolding(rights_core::specs::Right::see_queue))]
pub fn sees_queue(settings: &Settings, person: &str, queue: &QueueRow) -> bool
    ensures { result ≡ rights.sees_queue settings.now person.now queue.now }
{
    let name = queue.name.as_str();
    settings
        .people()
        .holds(person, right::SEE_QUEUE, name, Roles::none())
}

impl SeenRequest {
    /// Whether the person may show the request.
    #[tactic(auto, unfolding(rights_core::specs::Right::show_ticket))]
    pub fn is_shown_to(&self, settings: &Settings, person: &str) -> bool
        ensures { result ≡ rights.may_show settings.now person.now self.now }
    {
        self.is_held(settings, person, right::SHOW_TICKET)
    }

    /// Whether the person may show the comments of the request.
    #[tactic(auto, unfolding(rights_core::specs::Right::show_ticket_comments))]
    pub fn shows_comments_to(&self, settings: &Settings, person: &str) -> bool
        ensures { result ≡ rights.may_show_comments settings.now person.now self.now }
    {
        self.is_held(settings, person, right::SHOW_TICKET_COMMENTS)
    }

    /// Whether a person holds a right on the request, with the person's roles on it.
    pub fn is_held(&self, settings: &Settings, person: &str, right: &str) -> bool
        ensures { result ≡ rights.holds_on settings.now person.now right.now self.now }
    {
        let roles = self.roles_of(person);
        settings
            .people()
            .holds(person, right, self.row.queue.as_str(), roles)
    }

    /// The roles of a person on the request.
    fn roles_of(&self, person: &str) -> Roles
        ensures { result ≡ rights.roles_on person.now self.now }
    {
        Roles {
            owner: self.is_owned_by(person),
            requestor: self.requestors.contains(person),
            cc: self.cc.contains(person),
            admin_cc: self.admin_cc.contains(person),
        }
    }

    /// Whether the person owns the request.
    pub fn is_owned_by(&self, person: &str) -> bool
        ensures { result ≡ rights.owns person.now self.now }
    {
        match &self.row.owner {
            Some(owner) => owner.as_str() == person,
            None => false,
        }
    }
}

/// The roles of a person on a request, as its watchers tell them.
fn roles_among(person: &str, row: &RequestRow, watchers: &[Watcher]) -> Roles
    ensures { result ≡ words.roles_among person.now row.now watchers.now }
{
    Roles {
        owner: match &row.owner {
            Some(owner) => owner.as_str() == person,
            None => false,
        },
        requestor: is_watching(person, row.id, WatchRole::Requestor, watchers),
        cc: is_watching(person, row.id, WatchRole::Cc, watchers),
        admin_cc: is_watching(person, row.id, WatchRole::AdminCc, watchers),
    }
}

/// Whether the person is in that role on the request with this number.
fn is_watching(person: &str, id: u32, role: WatchRole, watchers: &[Watcher]) -> bool
    ensures { result ≡ words.is_watching person.now id role watchers.now }
{
    watchers.iter().any(|w| w.id == id && is_role(role, w.role) && w.person.as_str() == person)
}

/// Whether both roles are one.
pub fn is_role(role: WatchRole, other: WatchRole) -> bool
    ensures { result ≡ words.is_role role other }
{
    match (role, other) {
        (WatchRole::Requestor, WatchRole::Requestor) => true,
        (WatchRole::Cc, WatchRole::Cc) => true,
        (WatchRole::AdminCc, WatchRole::AdminCc) => true,
        _ => false,
    }
}
