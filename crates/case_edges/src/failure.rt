//! Why a case ends.

use case_text::CaseFault;
use desk_words::WordsFault;
use settings_core::SettingsFault;
use std::alloc::{AllocError, AllocFailed};
use std::io;
use store_core::StoreFault;
use thiserror::Error;

/// Why a case ends.
#[derive(Debug, Drop, Error)]
pub enum Failure {
    #[error("{0}")]
    Case(#[from] CaseFault),
    #[error("{0}")]
    Io(#[from] io::Error),
    #[error("{0}")]
    Memory(#[from] AllocError),
    #[error("{0}")]
    Database(#[from] sqlite::Error),
    #[error("{0}")]
    Store(#[from] StoreFault),
    #[error("{0}")]
    Settings(#[from] SettingsFault),
    #[error("{0}")]
    Words(#[from] WordsFault),
    #[error("the tables can't be opened")]
    NotOpened,
    #[error("the settings aren't attached")]
    NotAttached,
    #[error("a line isn't understood")]
    BadLine,
    #[error("it doesn't come to an end")]
    Endless,
}

impl<T: Drop> From<AllocFailed<T>> for Failure {
    fn from(_refused: AllocFailed<T>) -> Failure {
        Failure::Memory(AllocError)
    }
}
