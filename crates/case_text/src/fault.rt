//! Why a case ends.

use std::alloc::{AllocError, AllocFailed};
use std::io;
use std::num::ParseIntError;
use thiserror::Error;

/// Why a case ends.
#[derive(Debug, Drop, Error)]
pub enum CaseFault {
    /// A file can't be read, or nothing can be written.
    #[error("{0}")]
    Io(#[from] io::Error),
    /// Memory is refused.
    #[error("{0}")]
    Memory(#[from] AllocError),
    /// A word spells no number.
    #[error("{0}")]
    Number(#[from] ParseIntError),
    /// A line isn't understood.
    #[error("a line isn't understood")]
    BadLine,
}

impl<T: Drop> From<AllocFailed<T>> for CaseFault {
    fn from(_refused: AllocFailed<T>) -> CaseFault {
        CaseFault::Memory(AllocError)
    }
}
