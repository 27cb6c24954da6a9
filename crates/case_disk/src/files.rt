//! A database file and its log, as programs of cases see them: the bytes of each.

use std::alloc::{AllocError, Global};

/// What a file is left with.
#[derive(Drop)]
pub struct FileLeft {
    /// The bytes that stand in it.
    pub bytes: Vec<u8>,
    /// Those that are there where what wasn't synced is lost.
    pub synced: Vec<u8>,
}

/// What a database file and its log are left with.
#[derive(Drop)]
pub struct CaseFiles {
    pub log: FileLeft,
    pub db: FileLeft,
}

/// Files in memory: the bytes of each, which are synced, and after how many calls its disk stops.
#[derive(Clone, Copy)]
pub struct Start<'b> {
    pub log: &'b [u8],
    pub db: &'b [u8],
    pub log_calls: u64,
    pub db_calls: u64,
}

impl<'b> Start<'b> {
    /// New files, whose disks don't stop.
    pub const NEW: Start<'static> = Start {
        log: b"",
        db: b"",
        log_calls: u64::MAX,
        db_calls: u64::MAX,
    };

    /// An empty log and a database file with these bytes, whose disks don't stop.
    pub fn holding(db: &'b [u8]) -> Start<'b> {
        Start { db, ..Start::NEW }
    }
}

impl CaseFiles {
    /// The files as the machine finds them that failed: what wasn't synced is lost.
    pub fn after_crash(&self) -> Start<'_> {
        Start {
            log: self.log.synced.as_slice(),
            db: self.db.synced.as_slice(),
            ..Start::NEW
        }
    }

    /// The files as the next process finds them, where one was killed: their bytes as they stand.
    pub fn after_kill(&self) -> Start<'_> {
        Start {
            log: self.log.bytes.as_slice(),
            db: self.db.bytes.as_slice(),
            ..Start::NEW
        }
    }
}

/// These bytes, and those that are synced.
pub(crate) fn copied(alloc: Global, bytes: &[u8], synced: &[u8]) -> Result<FileLeft, AllocError> {
    Ok(FileLeft {
        bytes: Vec::from_slice(alloc, bytes)?,
        synced: Vec::from_slice(alloc, synced)?,
    })
}
