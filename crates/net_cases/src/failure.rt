//! Why a case ends.

use case_text::CaseFault;
use std::alloc::{AllocError, AllocFailed};
use std::io;
use thiserror::Error;

/// Why a case ends.
#[derive(Debug, Drop, Error)]
pub enum Failure {
    #[error("{0}")]
    Case(#[from] CaseFault),
    #[error("{0}")]
    Io(#[from] io::Error),
    #[error("{0}")]
    Memory(#[from] AllocError),
    #[error("a line isn't understood")]
    BadLine,
}

impl<T: Drop> From<AllocFailed<T>> for Failure {
    fn from(_refused: AllocFailed<T>) -> Failure {
        Failure::Memory(AllocError)
    }
}
