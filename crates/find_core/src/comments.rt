//! Who may see the comments of a request, and what is told with them or without.
ghost use Rattle.std.specs.Prelude.{◌≡◌};
ghost use Rattle.desk_model.specs.Watchers as watchers;
ghost use Rattle.report_core.specs.Rows.{WatchesRise};
ghost use Rattle.find_core.specs.Rows.{may_show_comments_by, told_with};

use crate::conditions::is_watching;
use desk_core::{Entry, RequestRow, WatchRole, Watcher};
use report_core::watches_of;
use rights_core::{Roles, right};
use settings_core::Settings;

/// The entries that are told, with the comments or without them.
pub fn told(comments: bool, mut entries: Vec<Entry>) -> Vec<Entry>
    ensures { result.items ≡ told_with comments entries.items }
{
    entries.retain(|entry| !entry.kind.is_comment() || comments);
    entries
}

/// Whether a person may see the comments of a request, by the person's own watches, in the order of
/// their requests.
pub fn shows_comments(settings: &Settings, person: &str, own: &[Watcher], row: &RequestRow) -> bool
    ensures { WatchesRise own.now
        → result ≡ may_show_comments_by settings.now person.now row.now own.now }
{
    may_show_comments(settings, person, row, watches_of(own, row.id))
}

/// The same, by watches of this request.
#[tactic(auto, unfolding(rights_core::specs::Right::show_ticket_comments))]
fn may_show_comments(
    settings: &Settings,
    person: &str,
    row: &RequestRow,
    watches: &[Watcher],
) -> bool
    ensures { result ≡ may_show_comments_by settings.now person.now row.now watches.now }
{
    let roles = roles_among(person, row, watches);
    settings.people().holds(
        person,
        right::SHOW_TICKET_COMMENTS,
        row.queue.as_str(),
        roles,
    )
}

/// The roles of a person on a request, as its watchers tell them.
fn roles_among(person: &str, row: &RequestRow, watches: &[Watcher]) -> Roles
    ensures { result ≡ watchers.roles_among person.now row.now watches.now }
{
    Roles {
        owner: match &row.owner {
            Some(owner) => owner.as_str() == person,
            None => false,
        },
        requestor: is_watching(person, row.id, WatchRole::Requestor, watches),
        cc: is_watching(person, row.id, WatchRole::Cc, watches),
        admin_cc: is_watching(person, row.id, WatchRole::AdminCc, watches),
    }
}
