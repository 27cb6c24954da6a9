//! What a command sees of the desk.

ghost use Rattle.std.specs.Prelude.{◌≡◌, ◌+◌, ◌^◌, ◌<◌, false};
ghost use Rattle.desk_model.specs.Commands.Create as create;
ghost use Rattle.desk_model.specs.Commands.SetStatus as set_status;

use crate::lifecycles::is_inactive;
use crate::rows::{QueueRow, RequestRow};
use hours_core::Stay;
use settings_core::Settings;
use std::alloc::AllocError;
use text_core::{Sequence, Text, Texts};

/// What a command looks at before it decides. What it doesn't look at is absent, empty or 0.
#[derive(Drop)]
pub struct Facts {
    /// The queue that the command names, or the queue of the request that it names.
    pub queue: Option<QueueRow>,
    /// How many queues there are.
    pub queue_count: u32,
    /// How many requests there are.
    pub request_count: u32,
    /// The request that the command names.
    pub request: Option<SeenRequest>,
    /// The stays of that request, in order, where the command may put another row or tells it.
    pub stays: Sequence<Stay>,
    /// The other request that the command names.
    pub other: Option<SeenRequest>,
    /// Whether the link that the command names is there.
    pub is_linked: bool,
    /// The requests that the one depends on.
    pub dependencies: Sequence<Dependency>,
}

impl Facts {
    /// Whether there are as many requests as the settings allow.
    pub fn is_full(&self, settings: &Settings) -> bool
        ensures full { result ≡ create.is_full settings.now self.now }
        ensures fits { result ≡ false → self.now.request_count + 1 < 2 ^ 32 }
    {
        self.request_count >= settings.max_requests()
    }

    /// Whether one of the requests that the one depends on isn't inactive.
    pub fn has_open_dependency(&self, settings: &Settings) -> bool
        ensures { result ≡ set_status.has_open_dependency settings.now self.now.dependencies }
    {
        self.dependencies
            .as_slice()
            .iter()
            .any(|dependency| dependency.is_open(settings))
    }
}

/// A request with its people, and how many entries its history has.
#[derive(Drop)]
pub struct SeenRequest {
    pub row: RequestRow,
    /// Its requestors, in the order of their bytes; and so are the next two lists.
    pub requestors: Texts,
    pub cc: Texts,
    pub admin_cc: Texts,
    pub entry_count: u32,
}

impl Clone for SeenRequest {
    ghost is_clone = { λ request copy. copy ≡ request };

    fn clone(&self) -> Result<SeenRequest, AllocError> {
        let requestors = self.requestors.clone()?;
        let cc = self.cc.clone()?;
        let admin_cc = self.admin_cc.clone()?;
        let row = self.row.clone()?;
        Ok(SeenRequest {
            row,
            requestors,
            cc,
            admin_cc,
            entry_count: self.entry_count,
        })
    }
}

/// A request that another one depends on: the lifecycle of its queue, and its status.
#[derive(Drop)]
pub struct Dependency {
    pub lifecycle: Text,
    pub status: Text,
}

impl Dependency {
    /// Whether it isn't inactive. A status that the settings don't know is not inactive.
    fn is_open(&self, settings: &Settings) -> bool
        ensures { result ≡ set_status.is_open_dependency settings.now self.now }
    {
        !is_inactive(
            settings.lifecycle(self.lifecycle.as_str()),
            self.status.as_str(),
        )
    }
}
