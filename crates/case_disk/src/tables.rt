//! Connections to files.

use crate::disk::EitherDisk;
use crate::files::{CaseFiles, FileLeft, Start, copied};
use sqlite::{Alter, Connection, FileStore, Options};
use sqlite_disk::{Crash, Disk, Files, Fuse, Memory};
use sqlite_std_file::{File, Unknown};
use std::alloc::{AllocError, Global};
use std::io;

/// A disk in memory that may stop, or a file.
type CaseDisk = EitherDisk<Fuse<Memory>, File>;

/// How files are left.
#[derive(Clone, Copy, PartialEq, Eq)]
pub enum End {
    /// As they are.
    Left,
    /// Closed: all that was committed is in the database file.
    Closed,
}

/// What comes of opening files.
pub enum Opened<C> {
    /// A connection.
    Open(C),
    /// They can't be opened, and are left so.
    Refused(CaseFiles),
}

/// What opens and closes connections of a type. So all else is over whatever store tables are in,
/// and names no kind of disk: what is proved of one kind is worked out anew for each function that
/// names it.
pub trait Opening<C> {
    /// Opens files in memory. An error is want of memory.
    fn open(&self, alloc: Global, start: Start<'_>) -> Result<Opened<C>, AllocError>;

    /// A connection to the files at a path, which are made where they are missing; none where they
    /// can't be opened.
    fn open_path(&self, rt: &HostRuntime, path: &str) -> Option<C>;

    /// What the files under a connection are left with, if they are in memory. An error is want of
    /// memory.
    fn close(&self, alloc: Global, conn: C, end: End) -> Result<CaseFiles, AllocError>;
}

/// What is done over tables, whatever store they are in.
pub trait OverTables {
    /// Does it.
    fn over<S: Alter + Drop, O: Opening<Connection<S>>>(&mut self, opening: &O);
}

/// Does it over tables on the disks of cases.
pub fn over_disks<V: OverTables>(doing: &mut V) {
    over_files::<CaseDisk, OnDisk, V>(doing, &OnDisk);
}

fn over_files<D: Disk + Drop, O: Opening<Connection<FileStore<D>>>, V: OverTables>(
    doing: &mut V,
    opening: &O,
) {
    doing.over::<FileStore<D>, O>(opening);
}

/// Tables on the disks of cases.
#[derive(Clone, Copy)]
struct OnDisk;

impl Opening<Connection<FileStore<CaseDisk>>> for OnDisk {
    fn open(
        &self,
        alloc: Global,
        start: Start<'_>,
    ) -> Result<Opened<Connection<FileStore<CaseDisk>>>, AllocError> {
        let Ok(files) = files_in_memory(alloc, start) else {
            return Err(AllocError);
        };
        match connected(alloc, files) {
            Ok(conn) => Ok(Opened::Open(conn)),
            Err(files) => Ok(Opened::Refused(files_left(alloc, files)?)),
        }
    }

    fn open_path(&self, rt: &HostRuntime, path: &str) -> Option<Connection<FileStore<CaseDisk>>> {
        let files = files_at(rt, path)?;
        connected(rt.alloc(), files).ok()
    }

    fn close(
        &self,
        alloc: Global,
        conn: Connection<FileStore<CaseDisk>>,
        end: End,
    ) -> Result<CaseFiles, AllocError> {
        files_left(alloc, closed(conn, end))
    }
}

/// The connection to the files, or the files where they can't be opened.
fn connected<D: Disk + Drop>(
    alloc: Global,
    files: Files<D>,
) -> Result<Connection<FileStore<D>>, Files<D>> {
    if !files.may_be_used() {
        return Err(files);
    }
    match Connection::open_files(alloc, files, Options::new(1)) {
        Ok(conn) => Ok(conn),
        Err((_, left)) => Err(left.into_files()),
    }
}

/// The files under a connection.
fn closed<D: Disk + Drop>(conn: Connection<FileStore<D>>, end: End) -> Files<D> {
    match end {
        End::Left => conn.into_store().close(),
        End::Closed => match conn.close_files() {
            Ok(files) => files,
            Err((_, store)) => store.close(),
        },
    }
}

fn files_in_memory(alloc: Global, start: Start<'_>) -> io::Result<Files<CaseDisk>> {
    let log = disk_in_memory(alloc, start.log, start.log_calls)?;
    let db = disk_in_memory(alloc, start.db, start.db_calls)?;
    Ok(Files { log, db })
}

/// A disk in memory with these bytes, synced, that stops after so many calls.
fn disk_in_memory(alloc: Global, bytes: &[u8], calls: u64) -> io::Result<CaseDisk> {
    let mut memory = Memory::new(alloc);
    memory.write_at(0, bytes)?;
    memory.sync()?;
    Ok(EitherDisk::Memory(Fuse::new(memory, calls)))
}

fn files_at(rt: &HostRuntime, path: &str) -> Option<Files<CaseDisk>> {
    let Files { log, db } = sqlite_std_file::open(rt, path, Unknown).ok()?;
    Some(Files {
        log: EitherDisk::File(log),
        db: EitherDisk::File(db),
    })
}

fn files_left(alloc: Global, files: Files<CaseDisk>) -> Result<CaseFiles, AllocError> {
    let Files { log, db } = files;
    let log = disk_left(alloc, log)?;
    let db = disk_left(alloc, db)?;
    Ok(CaseFiles { log, db })
}

fn disk_left(alloc: Global, disk: CaseDisk) -> Result<FileLeft, AllocError> {
    match disk {
        EitherDisk::Memory(fuse) => memory_left(alloc, fuse),
        EitherDisk::File(file) => {
            drop(file);
            copied(alloc, b"", b"")
        }
    }
}

fn memory_left(alloc: Global, fuse: Fuse<Memory>) -> Result<FileLeft, AllocError> {
    let bytes = Vec::from_slice(alloc, fuse.inner().bytes())?;
    let mut fuse = fuse;
    fuse.crash();
    copied(alloc, bytes.as_slice(), fuse.inner().bytes())
}
