//! Lifecycles: the classes of statuses, the moves between them, and the right for each.

ghost use Rattle.std.specs.Prelude.{◌≡◌, ◌≢◌, true, None, Some, IfOk, IfErr, is_some};
ghost use Rattle.std.specs.Option.{option_copied};
ghost use Rattle.text_core.specs.Form.{is_right_name};
ghost use Rattle.lifecycle_core.specs.Lifecycle as words;
ghost use Rattle.lifecycle_core.specs.Fault.{fault_of};
ghost use Rattle.lifecycle_core.specs.Standard.{default_lifecycle};
ghost use Rattle.lifecycle_core.specs.declared.fault.LifecycleFault.TheVariants.{NoMemory};

use crate::fault::LifecycleFault;
use crate::parts::{ANY_STATUS, Parts};
use crate::{checks, standard};
use std::alloc::Global;
use std::marker::Model;

/// The right that a move to `deleted` asks for where no entry gives one.
const DELETE_TICKET: &str = "DeleteTicket";

/// The right that any other move asks for where no entry gives one.
const MODIFY_TICKET: &str = "ModifyTicket";

/// Which of a lifecycle's three lists a status is in.
#[derive(Clone, Copy)]
pub enum Class {
    Initial,
    Active,
    Inactive,
}

/// The statuses of requests, the moves between them and the rights that these ask for.
///
/// It is seen as the parts that it was built from, which have no fault.
#[derive(Drop)]
pub struct Lifecycle {
    parts: Parts,
}

impl Model for Lifecycle {
    ghost use Rattle.std.specs.Prelude.{◌≡◌, None};
    ghost use Rattle.lifecycle_core.specs.Fault.{fault_of};
    ghost use Rattle.lifecycle_core.specs.declared.parts.Parts.{Parts};

    ghost Value = { Parts };

    ghost view = { λ l. l.parts };

    ghost invariant = { λ l. fault_of l.parts ≡ None };
}

impl Lifecycle {
    /// The lifecycle of the parts, or the first fault that applies to them, by number.
    ///
    /// `NoMemory` comes only in place of a lifecycle, where its copy of the parts is refused
    /// memory, never of a fault.
    pub fn build(alloc: Global, parts: &Parts) -> Result<Lifecycle, LifecycleFault>
        ensures ok { IfOk result (λ l. (fault_of parts.now ≡ None) × (l ≡ parts.now)) }
        ensures err { IfErr result (λ e. e ≢ NoMemory → fault_of parts.now ≡ Some e) }
        ensures memory { IfErr result (λ e. e ≡ NoMemory → fault_of parts.now ≡ None) }
    {
        match checks::fault_of(alloc, parts) {
            Some(fault) => Err(fault),
            None => Ok(Lifecycle {
                parts: parts.copied(alloc)?,
            }),
        }
    }

    /// The lifecycle `default`: `new` is initial, `open` and `stalled` are active, `resolved`,
    /// `rejected` and `deleted` inactive. A request is created as `new`, `open` or `resolved`,
    /// without a status as `new`, and moves between any two different statuses. A move to `deleted`
    /// asks for `DeleteTicket`, any other for `ModifyTicket`.
    ///
    /// The only fault is `NoMemory`.
    pub fn default_lifecycle(alloc: Global) -> Result<Lifecycle, LifecycleFault>
        ensures ok { IfOk result (λ l. l ≡ default_lifecycle) }
        ensures err { IfErr result (λ e. e ≡ NoMemory) }
    {
        Ok(Lifecycle {
            parts: standard::default_parts(alloc)?,
        })
    }

    /// What it was built from: its statuses, moves and rights. Takes no memory.
    pub fn parts(&self) -> &Parts
        ensures parts { result.now ≡ self.now }
        ensures sound { fault_of self.now ≡ None }
    {
        &self.parts
    }

    /// The class of a status, or none for a text that is no status here.
    pub fn class(&self, status: &str) -> Option<Class>
        ensures class { result ≡ words.class_of self.now status.now }
        ensures known { is_some result ≡ words.is_status self.now status.now }
    {
        if self.parts.initial.contains(status) {
            Some(Class::Initial)
        } else if self.parts.active.contains(status) {
            Some(Class::Active)
        } else if self.parts.inactive.contains(status) {
            Some(Class::Inactive)
        } else {
            None
        }
    }

    /// Whether a request may be created in the status.
    pub fn may_create(&self, status: &str) -> bool
        ensures { result ≡ words.may_create self.now status.now }
    {
        self.parts.create.contains(status)
    }

    /// Whether a request may move from the one status to the other.
    pub fn may_move(&self, from: &str, to: &str) -> bool
        ensures { result ≡ words.may_move self.now from.now to.now }
    {
        self.parts
            .moves
            .as_slice()
            .iter()
            .any(|m| m.from.as_str() == from && m.to.as_str() == to)
    }

    /// The right that a move asks for: that of the entry for the two statuses, for any status and
    /// `to`, for `from` and any status, or for any two, whichever is found first. Without such an
    /// entry it is `DeleteTicket` where `to` is `deleted`, and `ModifyTicket` otherwise.
    ///
    /// It answers for any two texts, also for a status and itself. The answer is a right's name.
    pub fn right_for(&self, from: &str, to: &str) -> &str
        ensures right { result.now ≡ words.right_of_move self.now from.now to.now }
        ensures named { is_right_name result.now ≡ true }
    {
        self.right_of_entry(from, to)
            .or_else(|| self.right_of_entry(ANY_STATUS, to))
            .or_else(|| self.right_of_entry(from, ANY_STATUS))
            .or_else(|| self.right_of_entry(ANY_STATUS, ANY_STATUS))
            .unwrap_or(usual_right(to))
    }

    /// Whether an entry gives this right to a move.
    pub fn names_right(&self, right: &str) -> bool
        ensures { result ≡ words.names_right self.now right.now }
    {
        self.parts
            .rights
            .as_slice()
            .iter()
            .any(|entry| entry.right.as_str() == right)
    }

    /// The first active status, in the order of their list, to which a request may move from the
    /// status.
    pub fn reopen_to(&self, from: &str) -> Option<&str>
        ensures { option_copied result ≡ words.reopening_target self.now from.now }
    {
        for status in self.parts.active.as_slice() {
            if self.may_move(from, status.as_str()) {
                return Some(status.as_str());
            }
        }
        None
    }

    /// The status of a request that is created without one. The parts of every lifecycle have no
    /// fault, so it is one of those in which a request may be created.
    pub fn on_create(&self) -> &str
        ensures status { result.now ≡ self.now.on_create }
        ensures sound { fault_of self.now ≡ None }
    {
        self.parts.on_create.as_str()
    }

    /// The right of the entry for just these two texts.
    fn right_of_entry(&self, from: &str, to: &str) -> Option<&str>
        ensures right { option_copied result ≡ words.right_of_entry self.now from.now to.now }
        ensures sound { fault_of self.now ≡ None }
    {
        self.parts
            .rights
            .as_slice()
            .iter()
            .find(|entry| entry.from.as_str() == from && entry.to.as_str() == to)
            .map(|entry| entry.right.as_str())
    }
}

/// The right that a move asks for where no entry gives one.
fn usual_right(to: &str) -> &'static str
    ensures { result.now ≡ words.usual_right to.now }
{
    if to == "deleted" {
        DELETE_TICKET
    } else {
        MODIFY_TICKET
    }
}
