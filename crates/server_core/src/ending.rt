//! How a server ends.

/// Why a server ended.
#[derive(Clone, Copy, Debug, PartialEq, Eq)]
pub enum Ending {
    /// It has answered as many messages as it was to.
    Counted,
    /// An accept or a wait has failed.
    Network,
    /// The desk can answer no message any more.
    Shut,
    /// It has had 2^64 - 1 turns.
    OutOfTurns,
}
