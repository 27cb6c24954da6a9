//! Many connections to one desk, in one thread: each message is one step of the desk after the other.
//!
//! In a turn each connection has at most one read, one step and one write, in the order of its place,
//! and a second read where its reply has gone out. A new connection takes a free place, or that of
//! one whose reply has gone out, or else that of the one that has waited longest without a whole
//! message, for a quarter of a second at least. One whose message is whole keeps its place.
//!
//! The contract of `serve` tells the history of its turns and accepts: which messages were answered,
//! by which steps of the desk, and at which moment and minute of its host. Each message that is whole
//! is answered in its turn. It ends by its count or where the desk counts as shut, after the replies,
//! by a failed wait, or by sixteen failed accepts in a row with no connection left.
#![tactic(auto)]

mod admit;
mod desk;
mod ending;
mod host;
pub mod laws;
mod server;
mod slot;
mod turn;
mod work;

pub use desk::{Answer, Desk};
pub use ending::Ending;
pub use host::{Host, NetFault, Readiness};
pub use server::serve;
pub use slot::Slot;
