//! A command is decided: its first refusal, or what it changes.

ghost use Rattle.std.specs.Prelude.{◌||◌, ◌≡◌, ◌≢◌, ◌+◌, ◌^◌, ◌<◌, true, false};
ghost use Rattle.std.specs.Prelude.{IfOk, IfErr, OnOk, None, Some, [], ◌∷◌};
ghost use Rattle.rights_core.specs.Right.{own_ticket};
ghost use Rattle.text_core.specs.Form.{is_right_name};
ghost use Rattle.desk_model.specs.Change.{no_change};
ghost use Rattle.desk_model.specs.Commands.{plan_of, IsReading};
ghost use Rattle.desk_model.specs.Condition.{Decides};
ghost use Rattle.desk_model.specs.Entries as entries;
ghost use Rattle.desk_model.specs.Plan.{change_by, conditions_by, is_missing, is_unseen};
ghost use Rattle.desk_model.specs.Rights as rights;
ghost use Rattle.desk_model.specs.Step.{refusal_beforehand};
ghost use Rattle.desk_core.specs.DecisionContext.{call_of};
ghost use Rattle.desk_core.specs.Decision.{Accepts, FollowsPlan, Refuses, change_of};

use crate::beforehand::{moment_of, refusal_without_facts};
use desk_model::{
    Call, Change, Command, Entry, EntryKind, Facts, Refusal, SeenRequest, Topic, sees_queue,
};
use hours_core::Minute;
use rights_core::{Roles, right};
use settings_core::Settings;
use std::alloc::{AllocError, Global};
use text_core::{RightName, Sequence, Text};

mod comment;
mod create;
mod give;
mod link;
mod open_queue;
mod reply;
mod set_level;
mod set_status;
mod steal;
mod take;
mod unlink;
mod untake;
mod unwatch;
mod watch;

/// Decides a command by a caller at a moment, in minutes since 1970-01-01 00:00 UTC: the change
/// that it makes, or the first refusal that is called for.
///
/// On the facts of a desk, that is the refusal that the desk gives, or the change that leads to the
/// desk after the command. A reading command changes nothing. The right that `Denied` names is a
/// right's name. Out of memory, the answer may be `Unavailable`.
pub fn decide(
    alloc: Global,
    settings: &Settings,
    at: u32,
    caller: &str,
    facts: &Facts,
    command: &Command,
) -> Result<Change, Refusal>
    ensures accepts { Accepts settings.now at caller.now facts.now command.now result }
    ensures refuses { Refuses settings.now at caller.now facts.now command.now result }
    ensures planned { FollowsPlan settings.now at caller.now facts.now command.now result }
    ensures reads { IsReading command.now → IfOk result (λ change. change ≡ no_change) }
{
    match refusal_without_facts(settings, at, caller, command) {
        Some(refusal) => Err(refusal),
        None => decide_on_facts(alloc, settings, at, caller, facts, command),
    }
}

/// Decides, as `decide` does, a command that `refusal_without_facts` doesn't refuse. Nothing of what
/// is refused there is asked again.
pub fn decide_on_facts(
    alloc: Global,
    settings: &Settings,
    at: u32,
    caller: &str,
    facts: &Facts,
    command: &Command,
) -> Result<Change, Refusal>
    requires { refusal_beforehand settings.now at caller.now command.now ≡ None }
    ensures accepts { Accepts settings.now at caller.now facts.now command.now result }
    ensures refuses { Refuses settings.now at caller.now facts.now command.now result }
    ensures planned { FollowsPlan settings.now at caller.now facts.now command.now result }
    ensures reads { IsReading command.now → IfOk result (λ change. change ≡ no_change) }
{
    let call = Call {
        settings,
        at,
        caller,
    };
    follow_plan(alloc, call, facts, command)
}

/// The decision by the plan of the command.
fn follow_plan(
    alloc: Global,
    call: Call<'_>,
    facts: &Facts,
    command: &Command,
) -> Result<Change, Refusal>
    requires { refusal_beforehand call.settings.now call.at call.caller.now
        command.now ≡ None }
    ensures { FollowsPlan call.entry.settings.now call.entry.at call.entry.caller.now
        facts.now command.now result }
{
    let Some(moment) = moment_of(call.at) else {
        unreachable!()
    };
    let context = DecisionContext {
        alloc,
        settings: call.settings,
        moment,
        caller: call.caller,
        facts,
    };
    context.decide_with_due(command)
}

/// What a decision on a command is made by that isn't refused beforehand.
#[derive(Drop)]
struct DecisionContext<'c> {
    alloc: Global,
    settings: &'c Settings,
    moment: Minute,
    caller: &'c str,
    facts: &'c Facts,
}

impl<'c> DecisionContext<'c> {
    /// The decision, where a change has the stays of the request whose row it puts, and its due
    /// moment.
    fn decide_with_due(&self, command: &Command) -> Result<Change, Refusal>
        ensures { Decides result
            (conditions_by (call_of self.now) self.now.facts.now (plan_of command.now))
            (change_of (call_of self.now) self.now.facts.now command.now) }
    {
        match self.decide(command) {
            Ok(change) => Ok(change.dated(self.alloc, self.settings, self.facts)?),
            Err(refusal) => Err(refusal),
        }
    }

    /// The decision, command by command.
    fn decide(&self, command: &Command) -> Result<Change, Refusal>
        ensures { Decides result
            (conditions_by (call_of self.now) self.now.facts.now (plan_of command.now))
            (change_by (call_of self.now) self.now.facts.now (plan_of command.now)) }
    {
        match command {
            Command::OpenQueue {
                queue,
                lifecycle,
                level,
            } => self.open_queue(queue, lifecycle, level),
            Command::Create {
                queue,
                subject,
                status,
                requestors,
            } => self.create(queue, subject, status, requestors),
            Command::SetStatus { status, .. } => self.set_status(status),
            Command::Take { .. } => self.take(),
            Command::Steal { .. } => self.steal(),
            Command::Untake { .. } => self.untake(),
            Command::Give { person, .. } => self.give(person),
            Command::Reply { text, .. } => self.reply(text),
            Command::Comment { text, .. } => self.comment(text),
            Command::Watch { role, person, .. } => self.watch(*role, person),
            Command::Unwatch { role, person, .. } => self.unwatch(*role, person),
            Command::Link { kind, other, .. } => self.link(*kind, *other),
            Command::Unlink { kind, other, .. } => self.unlink(*kind, *other),
            Command::SetLevel { level, .. } => self.set_level(level),
            _ => self.read(command),
        }
    }

    /// Lets a command read, where the caller may see what it is about: nothing changes.
    fn read(&self, command: &Command) -> Result<Change, Refusal>
        requires { IsReading command.now }
        ensures { Decides result
            (conditions_by (call_of self.now) self.now.facts.now (plan_of command.now))
            (change_by (call_of self.now) self.now.facts.now (plan_of command.now)) }
    {
        match command.topic() {
            Some(Topic::Desk) => Ok(Change::no_change(self.alloc)),
            Some(Topic::Queue(_)) => self.read_queue(),
            Some(Topic::Request(_)) => self.read_request(),
            None => unreachable!(),
        }
    }

    /// Lets a command read of the request, where the caller may show it: nothing changes.
    fn read_request(&self) -> Result<Change, Refusal>
        ensures ok { IfOk result (λ change. (change ≡ no_change)
            × (is_missing (call_of self.now) self.now.facts.now.request ≡ false)) }
        ensures err { IfErr result (λ refusal. (refusal ≡ Refusal.NotFound)
            × (is_missing (call_of self.now) self.now.facts.now.request ≡ true)) }
    {
        self.shown()?;
        Ok(Change::no_change(self.alloc))
    }

    /// Lets a command read of the queue, where the caller may see it: nothing changes.
    fn read_queue(&self) -> Result<Change, Refusal>
        ensures ok { IfOk result (λ change. (change ≡ no_change)
            × (is_unseen (call_of self.now) self.now.facts.now.queue ≡ false)) }
        ensures err { IfErr result (λ refusal. (refusal ≡ Refusal.NotFound)
            × (is_unseen (call_of self.now) self.now.facts.now.queue ≡ true)) }
    {
        match &self.facts.queue {
            Some(queue) if sees_queue(self.settings, self.caller, queue) => {
                Ok(Change::no_change(self.alloc))
            }
            _ => Err(Refusal::NotFound),
        }
    }

    /// The request that the command names, where the caller may show it and the other one too.
    fn both_shown(&self) -> Result<&'c SeenRequest, Refusal>
        ensures ok { IfOk result (λ request. (self.now.facts.now.request ≡ Some request.now)
            × (is_missing (call_of self.now) (Some request.now) ≡ false)
            × (is_missing (call_of self.now) self.now.facts.now.other ≡ false)) }
        ensures err { IfErr result (λ refusal. (refusal ≡ Refusal.NotFound)
            × ((is_missing (call_of self.now) self.now.facts.now.request
            || is_missing (call_of self.now) self.now.facts.now.other) ≡ true)) }
    {
        let request = self.shown()?;
        match &self.facts.other {
            Some(other) if self.is_shown(other) => Ok(request),
            _ => Err(Refusal::NotFound),
        }
    }

    /// The request that the command names, where the caller may show it.
    fn shown(&self) -> Result<&'c SeenRequest, Refusal>
        ensures ok { IfOk result (λ request. (self.now.facts.now.request ≡ Some request.now)
            × (is_missing (call_of self.now) (Some request.now) ≡ false)) }
        ensures err { IfErr result (λ refusal. (refusal ≡ Refusal.NotFound)
            × (is_missing (call_of self.now) self.now.facts.now.request ≡ true)) }
    {
        match &self.facts.request {
            Some(request) if self.is_shown(request) => Ok(request),
            _ => Err(Refusal::NotFound),
        }
    }

    /// Whether the caller may show the request.
    fn is_shown(&self, request: &SeenRequest) -> bool
        ensures { result ≡ rights.may_show self.now.settings.now self.now.caller.now request.now }
    {
        request.is_shown_to(self.settings, self.caller)
    }

    /// Whether a person holds a right on the request, with the person's roles on it.
    fn holds(&self, person: &str, right: &str, request: &SeenRequest) -> bool
        ensures { result ≡ rights.holds_on self.now.settings.now person.now right.now request.now }
    {
        request.is_held(self.settings, person, right)
    }

    /// Refuses where the caller lacks a right on the request.
    fn ask(&self, right: &str, request: &SeenRequest) -> Result<(), Refusal>
        requires { is_right_name right.now ≡ true }
        ensures ok { OnOk result (rights.holds_on
            self.now.settings.now self.now.caller.now right.now request.now ≡ true) }
        ensures err { IfErr result (λ refusal. refusal ≢ Refusal.Unavailable
            → (refusal ≡ Refusal.Denied right.now) × (rights.holds_on
            self.now.settings.now self.now.caller.now right.now request.now ≡ false)) }
    {
        if self.holds(self.caller, right, request) {
            Ok(())
        } else {
            Err(self.denied(right))
        }
    }

    /// Refuses where the person may not own the request.
    #[tactic(auto, unfolding(rights_core::specs::Right::own_ticket))]
    fn ask_to_own(&self, person: &str, request: &SeenRequest) -> Result<(), Refusal>
        ensures ok { OnOk result (rights.holds_on
            self.now.settings.now person.now own_ticket request.now ≡ true) }
        ensures err { IfErr result (λ refusal. refusal ≢ Refusal.Unavailable
            → (refusal ≡ Refusal.Denied own_ticket) × (rights.holds_on
            self.now.settings.now person.now own_ticket request.now ≡ false)) }
    {
        if self.holds(person, right::OWN_TICKET, request) {
            Ok(())
        } else {
            Err(self.denied(right::OWN_TICKET))
        }
    }

    /// Refuses where the caller lacks a right on the queue of that name: nobody has a role on a
    /// queue.
    fn ask_on_queue(&self, right: &str, queue: &Text) -> Result<(), Refusal>
        requires { is_right_name right.now ≡ true }
        ensures ok { OnOk result (rights.holds_on_queue
            self.now.settings.now self.now.caller.now right.now queue.now ≡ true) }
        ensures err { IfErr result (λ refusal. refusal ≢ Refusal.Unavailable
            → (refusal ≡ Refusal.Denied right.now) × (rights.holds_on_queue
            self.now.settings.now self.now.caller.now right.now queue.now ≡ false)) }
    {
        let people = self.settings.people();
        if people.holds(self.caller, right, queue.as_str(), Roles::none()) {
            Ok(())
        } else {
            Err(self.denied(right))
        }
    }

    /// That a right is lacking, or that there is no memory to say so.
    fn denied(&self, right: &str) -> Refusal
        requires { is_right_name right.now ≡ true }
        ensures { result ≢ Refusal.Unavailable → result ≡ Refusal.Denied right.now }
    {
        match RightName::new(self.alloc, right) {
            Ok(right) => Refusal::Denied(right),
            Err(_) => Refusal::Unavailable,
        }
    }

    /// Refuses where so many more entries are too many.
    fn ask_for_room(&self, request: &SeenRequest, count: u32) -> Result<(), Refusal>
        ensures ok { OnOk result (entries.lacks_room (call_of self.now) request.now count ≡ false) }
        ensures fits { OnOk result (request.now.entry_count + count < 2 ^ 32) }
        ensures err { IfErr result (λ refusal. (refusal ≡ Refusal.Full)
            × (entries.lacks_room (call_of self.now) request.now count ≡ true)) }
    {
        let wanted = u64::from(request.entry_count) + u64::from(count);
        if u64::from(self.settings.max_entries()) < wanted {
            Err(Refusal::Full)
        } else {
            Ok(())
        }
    }

    /// The entry of that number after those that are there.
    fn entry(
        &self,
        request: &SeenRequest,
        number: u32,
        kind: EntryKind,
        head: &str,
        body: &str,
    ) -> Result<Entry, AllocError>
        requires { request.now.entry_count + number < 2 ^ 32 }
        ensures { IfOk result (λ entry. entry
            ≡ entries.entry_of (call_of self.now) request.now number kind head.now body.now) }
    {
        let actor = Text::new(self.alloc, self.caller)?;
        let head = Text::new(self.alloc, head)?;
        let body = Text::new(self.alloc, body)?;
        Ok(Entry {
            id: request.row.id,
            number: request.entry_count + number,
            moment: self.moment,
            actor,
            kind,
            head,
            body,
        })
    }

    /// The next entry after those that are there, alone.
    fn one_entry(
        &self,
        request: &SeenRequest,
        kind: EntryKind,
        head: &str,
        body: &str,
    ) -> Result<Sequence<Entry>, AllocError>
        requires { request.now.entry_count + 1 < 2 ^ 32 }
        ensures { IfOk result (λ noted. noted
            ≡ entries.entry_of (call_of self.now) request.now 1 kind head.now body.now ∷ []) }
    {
        let entry = self.entry(request, 1, kind, head, body)?;
        Ok(Sequence::from(vec![in self.alloc; entry]?))
    }
}
