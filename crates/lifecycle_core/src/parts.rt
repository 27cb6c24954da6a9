//! What a lifecycle is built from.

ghost use Rattle.std.specs.Prelude.{◌≡◌, IfOk};

use std::alloc::{AllocError, Global};
use text_core::{Sequence, Text, Texts};

/// What stands for every status in a right's entry.
pub const ANY_STATUS: &str = "*";

/// A move of a request from one status to another.
#[derive(Clone, Drop)]
pub struct Move {
    pub from: Text,
    pub to: Text,
}

/// The right that a move asks for. Either status may be `ANY_STATUS`.
#[derive(Clone, Drop)]
pub struct MoveRight {
    pub from: Text,
    pub to: Text,
    pub right: Text,
}

/// What a lifecycle is built from.
#[derive(Drop)]
pub struct Parts {
    /// The statuses of requests that nobody works on yet.
    pub initial: Texts,
    /// The statuses of requests that are worked on.
    pub active: Texts,
    /// The statuses of requests that are done with.
    pub inactive: Texts,
    /// The status of a request that is created without one.
    pub on_create: Text,
    /// The statuses in which a request may be created.
    pub create: Texts,
    /// The moves that are allowed. One that is named again counts once.
    pub moves: Sequence<Move>,
    /// The rights of moves.
    pub rights: Sequence<MoveRight>,
}

impl Parts {
    /// The same parts, their lists in memory of the allocator.
    pub(crate) fn copied(&self, alloc: Global) -> Result<Parts, AllocError>
        ensures { IfOk result (λ p. p ≡ self.now) }
    {
        Ok(Parts {
            initial: Texts::from(self.initial.as_slice().to_vec(alloc)?),
            active: Texts::from(self.active.as_slice().to_vec(alloc)?),
            inactive: Texts::from(self.inactive.as_slice().to_vec(alloc)?),
            on_create: Text::new(alloc, self.on_create.as_str())?,
            create: Texts::from(self.create.as_slice().to_vec(alloc)?),
            moves: Sequence::from(self.moves.as_slice().to_vec(alloc)?),
            rights: Sequence::from(self.rights.as_slice().to_vec(alloc)?),
        })
    }
}
