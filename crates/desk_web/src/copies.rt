//! Copies of the tables, made while they are served.

use sqlite::Connection;
use std::alloc::{AllocError, Global};
use std::fs::{self, File};
use std::io::ErrorKind;

/// Copies the file and its log, makes one file of them, asks the disk to keep it, and puts it in its
/// place. What stands there is the copy before or this one, whole, and no log beside it. None where
/// anything failed, and where a name that is written here is that of the tables.
pub fn copy_to(rt: &HostRuntime, tables: &str, place: &str) -> Option<()> {
    let log = with_end(rt.alloc(), tables, "-wal").ok()?;
    let part = with_end(rt.alloc(), place, ".part").ok()?;
    let part_log = with_end(rt.alloc(), place, ".part-wal").ok()?;
    let place_log = with_end(rt.alloc(), place, "-wal").ok()?;
    let own = [tables, log.as_str()];
    if is_one_of(rt, &own, place)
        || is_one_of(rt, &own, part.as_str())
        || is_one_of(rt, &own, part_log.as_str())
        || is_one_of(rt, &own, place_log.as_str())
    {
        return None;
    }
    copy_both(rt, tables, log.as_str(), part.as_str(), part_log.as_str())?;
    merge(rt, part.as_str())?;
    sync(rt, part.as_str())?;
    remove(rt, part_log.as_str())?;
    // who opened the copy before may have left its log
    remove(rt, place_log.as_str())?;
    fs::rename(rt, part.as_str(), place).ok()?;
    sync_folder_of(rt, place)
}

/// A path with something behind it.
fn with_end(alloc: Global, path: &str, end: &str) -> Result<String, AllocError> {
    let mut whole = String::new(alloc);
    whole.push_str(path)?;
    whole.push_str(end)?;
    Ok(whole)
}

/// Whether a path leads to where one of these files stands, or it can't be told.
fn is_one_of(rt: &HostRuntime, files: &[&str], path: &str) -> bool {
    let full = match fs::canonicalize(rt, path) {
        Ok(full) => full,
        Err(error) => return error.kind() != ErrorKind::NotFound,
    };
    for file in files {
        match fs::canonicalize(rt, *file) {
            Ok(other) if other.as_str() != full.as_str() => {}
            Ok(_) => return true,
            Err(error) if error.kind() == ErrorKind::NotFound => {}
            Err(_) => return true,
        }
    }
    false
}

/// Copies the tables and their log, if there is one.
fn copy_both(rt: &HostRuntime, tables: &str, log: &str, part: &str, part_log: &str) -> Option<()> {
    // what a copy left that didn't end
    remove(rt, part_log)?;
    fs::copy(rt, tables, part).ok()?;
    match fs::copy(rt, log, part_log) {
        Ok(_) => Some(()),
        Err(error) if error.kind() == ErrorKind::NotFound => Some(()),
        Err(_) => None,
    }
}

/// Removes a file, if it is there.
fn remove(rt: &HostRuntime, path: &str) -> Option<()> {
    match fs::remove_file(rt, path) {
        Ok(()) => Some(()),
        Err(error) if error.kind() == ErrorKind::NotFound => Some(()),
        Err(_) => None,
    }
}

/// Puts the log of a copy into it: closing does that.
fn merge(rt: &HostRuntime, part: &str) -> Option<()> {
    Connection::open(rt, part).ok()?.close().ok()
}

/// Asks the disk to keep what stands in a file or a folder.
fn sync(rt: &HostRuntime, path: &str) -> Option<()> {
    File::open(rt, path).ok()?.sync_all().ok()
}

/// The same of the folder in which a path is, by its full name.
fn sync_folder_of(rt: &HostRuntime, path: &str) -> Option<()> {
    let full = fs::canonicalize(rt, path).ok()?;
    sync(rt, full.parent()?.as_str())
}
