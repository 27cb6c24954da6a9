//! Which queues a person may see, as the grants tell it of all of them at once.
ghost use Rattle.std.specs.Prelude.{◌≡◌, ◌&&◌, ◌||◌, ℕ, Bool, List, true};
ghost use Rattle.std.specs.Option.{option_map_or};
ghost use Rattle.std.specs.List.{list_any};
ghost use Rattle.std.specs.Str.{bytes_eq};
ghost use Rattle.desk_model.specs.Rights.{holds_on_queue};
ghost use Rattle.rights_core.specs.People.{gives, is_meant as is_meant_by, no_roles};
ghost use Rattle.rights_core.specs.Right.{see_queue, super_user};
ghost use Rattle.service_core.specs.QueueVisibility.{IsSight, lets_see};

use rights_core::{Grant, People, Subject, right};
use settings_core::Settings;
use text_core::Text;

/// The queues that a person may see.
#[derive(Clone, Copy)]
pub(crate) enum QueueVisibility<'s> {
    /// None.
    Nothing,
    /// The one of this name, if it is there.
    One(&'s Text),
    /// Maybe more.
    Several,
}

/// The queues that a person may see, by the grants that mean the person. Takes no memory.
pub(crate) fn visible_queues<'s>(settings: &'s Settings, person: &str) -> QueueVisibility<'s>
    ensures { IsSight result (holds_on_queue settings.now person.now see_queue) }
{
    let people = settings.people();
    if people.knows(person) {
        sight_by(people, person, people.parts().grants.as_slice())
    } else {
        QueueVisibility::Nothing
    }
}

/// The queues that these grants let the person see.
fn sight_by<'s>(people: &People, person: &str, grants: &'s [Grant]) -> QueueVisibility<'s>
    ensures { IsSight result
        (λ queue. list_any (lets_see people.now person.now queue) grants.now) }
{
    let mut sight = QueueVisibility::Nothing;
    for grant in grants {
        if shows_queues(people, person, grant) {
            sight = sight.and(&grant.queue);
        }
    }
    sight
}

impl<'s> QueueVisibility<'s> {
    /// With the queue of this name, or with all of them.
    fn and(self, queue: &'s Option<Text>) -> QueueVisibility<'s>
        ensures { (sees : List ℕ → Bool) → IsSight self.entry sees
            → IsSight result (λ name. sees name
            || option_map_or (λ q. bytes_eq q name) queue.now true) }
    {
        match (self, queue) {
            (QueueVisibility::Nothing, Some(name)) => QueueVisibility::One(name),
            (QueueVisibility::One(one), Some(name)) if one.as_str() == name.as_str() =>
                QueueVisibility::One(one),
            _ => QueueVisibility::Several,
        }
    }
}

/// Whether the grant lets the person see queues.
fn shows_queues(people: &People, person: &str, grant: &Grant) -> bool
    ensures { result ≡ (gives grant.now see_queue
        && is_meant_by people.now person.now no_roles grant.now.subject) }
{
    gives_sight(grant.right.as_str()) && is_meant(people, person, &grant.subject)
}

/// Whether the right is that to see queues, or a super user's.
#[tactic(auto, unfolding(rights_core::specs::Right::see_queue, rights_core::specs::Right::super_user))]
fn gives_sight(name: &str) -> bool
    ensures { result ≡ (bytes_eq see_queue name.now || bytes_eq super_user name.now) }
{
    right::SEE_QUEUE == name || right::SUPER_USER == name
}

/// Whether the subject means the person, who has no role.
#[tactic(auto, unfolding(rights_core::specs::People::no_roles))]
fn is_meant(people: &People, person: &str, subject: &Subject) -> bool
    ensures { result ≡ is_meant_by people.now person.now no_roles subject.now }
{
    match subject {
        Subject::Everyone => true,
        Subject::Person(name) => name.as_str() == person,
        Subject::Group(name) => people.member(person, name.as_str()),
        Subject::Role(_) => false,
    }
}
