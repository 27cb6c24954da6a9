//! What a person may do with a request, by the rights that the person holds on it.
ghost use Rattle.std.specs.Prelude.{◌≡◌};
ghost use Rattle.desk_pages.specs.Rights as form;

use crate::rows::is_of;
use desk_model::Shown;
use rights_core::{Roles, right};
use settings_core::Settings;

/// Whether a person holds a right on a request, with the roles that the person has on it.
pub(crate) fn holds_on(settings: &Settings, shown: &Shown, name: &str, right: &str) -> bool
    ensures { result ≡ form.holds_on settings.now shown.now name.now right.now }
{
    let queue = shown.row.queue.as_str();
    let roles = roles_in(shown, name);
    settings.people().holds(name, right, queue, roles)
}

fn roles_in(shown: &Shown, name: &str) -> Roles
    ensures { result ≡ form.roles_in shown.now name.now }
{
    Roles {
        owner: match &shown.row.owner {
            Some(owner) => owner.as_str() == name,
            None => false,
        },
        requestor: shown.requestors.contains(name),
        cc: shown.cc.contains(name),
        admin_cc: shown.admin_cc.contains(name),
    }
}

/// Whether a person may reply to the request.
#[tactic(auto, unfolding(rights_core::specs::Right::reply_to_ticket))]
pub(crate) fn may_reply(settings: &Settings, shown: &Shown, name: &str) -> bool
    ensures { result ≡ form.may_reply settings.now shown.now name.now }
{
    holds_on(settings, shown, name, right::REPLY_TO_TICKET)
}

/// Whether a person may comment on the request.
#[tactic(auto, unfolding(rights_core::specs::Right::comment_on_ticket))]
pub(crate) fn may_comment(settings: &Settings, shown: &Shown, name: &str) -> bool
    ensures { result ≡ form.may_comment settings.now shown.now name.now }
{
    holds_on(settings, shown, name, right::COMMENT_ON_TICKET)
}

/// Whether a person may own the request.
#[tactic(auto, unfolding(rights_core::specs::Right::own_ticket))]
pub(crate) fn may_own(settings: &Settings, shown: &Shown, name: &str) -> bool
    ensures { result ≡ form.may_own settings.now shown.now name.now }
{
    holds_on(settings, shown, name, right::OWN_TICKET)
}

/// Whether a person may change the request's level, its persons and its links.
#[tactic(auto, unfolding(rights_core::specs::Right::modify_ticket))]
pub(crate) fn may_modify(settings: &Settings, shown: &Shown, name: &str) -> bool
    ensures { result ≡ form.may_modify settings.now shown.now name.now }
{
    holds_on(settings, shown, name, right::MODIFY_TICKET)
}

/// Whether a person may give the request away, whoever owns it.
#[tactic(auto, unfolding(rights_core::specs::Right::reassign_ticket))]
fn may_reassign(settings: &Settings, shown: &Shown, name: &str) -> bool
    ensures { result ≡ form.may_reassign settings.now shown.now name.now }
{
    holds_on(settings, shown, name, right::REASSIGN_TICKET)
}

/// Whether a person may take a request that nobody owns.
#[tactic(auto, unfolding(rights_core::specs::Right::take_ticket))]
fn may_take(settings: &Settings, shown: &Shown, name: &str) -> bool
    ensures { result ≡ form.may_take settings.now shown.now name.now }
{
    holds_on(settings, shown, name, right::TAKE_TICKET)
}

/// Whether a person may steal the request from its owner.
#[tactic(auto, unfolding(rights_core::specs::Right::steal_ticket))]
fn may_steal(settings: &Settings, shown: &Shown, name: &str) -> bool
    ensures { result ≡ form.may_steal settings.now shown.now name.now }
{
    holds_on(settings, shown, name, right::STEAL_TICKET)
}

/// Whether a person may watch the request, or stop watching it.
#[tactic(auto, unfolding(rights_core::specs::Right::watch))]
fn may_watch(settings: &Settings, shown: &Shown, name: &str) -> bool
    ensures { result ≡ form.may_watch settings.now shown.now name.now }
{
    holds_on(settings, shown, name, right::WATCH)
}

/// Whether a person may do what the form for the owner offers: take what nobody owns, let go of one's
/// own, or steal another person's.
pub(crate) fn may_change_owner(settings: &Settings, shown: &Shown, name: &str) -> bool
    ensures { result ≡ form.may_change_owner settings.now shown.now name.now }
{
    if shown.row.owner.is_none() {
        may_own(settings, shown, name) && may_take(settings, shown, name)
    } else {
        is_of(name, &shown.row.owner)
            || (may_own(settings, shown, name) && may_steal(settings, shown, name))
    }
}

/// Whether a person may give the request away: one's own, or by a right.
pub(crate) fn may_give(settings: &Settings, shown: &Shown, name: &str) -> bool
    ensures { result ≡ form.may_give settings.now shown.now name.now }
{
    is_of(name, &shown.row.owner) || may_reassign(settings, shown, name)
}

/// Whether a person may put anybody in or out: by the right to change the request, or oneself.
pub(crate) fn may_set_persons(settings: &Settings, shown: &Shown, name: &str) -> bool
    ensures { result ≡ form.may_set_persons settings.now shown.now name.now }
{
    may_modify(settings, shown, name) || may_watch(settings, shown, name)
}
