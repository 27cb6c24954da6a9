//! How a server ends, as cases tell it.

use server_core::Ending;
use std::alloc::AllocError;

/// The word for an ending.
pub fn name_of(ending: Result<Ending, AllocError>) -> &'static str {
    match ending {
        Ok(Ending::Counted) => "counted",
        Ok(Ending::Network) => "network",
        Ok(Ending::Shut) => "shut",
        Ok(Ending::OutOfTurns) => "spent",
        Err(_) => "out of memory",
    }
}
