//! Lifecycles: the statuses of a request, the moves between them, and the right that each move asks
//! for.
//!
//! `Lifecycle::build` gives the fault with the least number, or the lifecycle of the parts. It is
//! seen as these parts, which have no fault. What it answers afterwards takes no memory.
#![tactic(auto)]

mod checks;
mod fault;
mod lifecycle;
mod pairs;
mod parts;
mod standard;
mod statuses;

pub use fault::LifecycleFault;
pub use lifecycle::{Class, Lifecycle};
pub use parts::{ANY_STATUS, Move, MoveRight, Parts};
