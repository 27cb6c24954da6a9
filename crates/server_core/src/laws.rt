//! What holds of every server.
ghost use Rattle.std.specs.Prelude.{◌≡◌, ◌≤◌, ◌+◌, ◌*◌, ◌⊎◌, ℕ, List, replicate};
ghost use Rattle.server_core.specs.AtPlace.{KeepsPlace, answers_at};
ghost use Rattle.connection_core.specs.Laws.{StatesAtMost};
ghost use Rattle.connection_core.specs.Machine.{Conn, closed};
ghost use Rattle.server_core.specs.Held.{AllOf, IsAtMost, IsHeard, held};
ghost use Rattle.server_core.specs.Places.{HasFree};
ghost use Rattle.server_core.specs.Rests.{IsPause, Rest};
ghost use Rattle.server_core.specs.Served.{Runs, Serves, Turn, answers};

use crate::admit::Queue;
use crate::desk::Desk;

/// Whatever its connections do, the desk makes the steps of the messages that were answered, one
/// after the other, and nothing else.
pub fn run_law<D: Desk>()
    ensures { (most : ℕ) (turns : List Turn) (olds news : List Conn) (desk next : D)
        → Serves D.States D.Steps D.shuts most turns olds desk news next
        → Runs D.Steps (answers turns) desk next }
{}

/// Whatever comes, at most one message is answered at a place between two connections that it is
/// given to.
pub fn once_law<D: Desk>()
    ensures { (place most : ℕ) (turns : List Turn) (olds news : List Conn) (desk next : D)
        → Serves D.States D.Steps D.shuts most turns olds desk news next → KeepsPlace place turns
        → answers_at place turns ≤ 1 }
{}

/// Where a client may wait and a place is free, no time is waited.
pub fn pause_law()
    ensures { (rest : Rest) (cs : List Conn) → IsPause rest cs
        → (rest.known.queue ≡ Queue.More) ⊎ (rest.known.queue ≡ Queue.Full) → HasFree cs
        → rest.pause ≡ 0 }
{}

/// Each message that was answered is a front of the bytes that came from its connection.
pub fn heard_law<D: Desk>()
    ensures { (places most : ℕ) (turns : List Turn) (news : List Conn) (desk next : D)
        → Serves D.States D.Steps D.shuts most turns (replicate places closed) desk news next
        → AllOf (IsHeard D.States) (answers turns) }
{}

/// No more is held than 8,192 bytes, the longest body and the longest reply for each place.
pub fn memory_law<D: Desk>()
    ensures { (places most bytes : ℕ) (turns : List Turn) (news : List Conn) (desk next : D)
        → StatesAtMost D.limit D.States
        → Serves D.States D.Steps D.shuts most turns (replicate places closed) desk news next
        → AllOf (IsAtMost bytes) (answers turns)
        → held news ≤ places * (8192 + D.limit + bytes) }
{}
