//! One type of disk for what is in memory and for a file.

ghost use Rattle.case_disk.specs.Disk.{shown, Leaves, of_each};

use sqlite_disk::{Disk, Tally};
use std::io;

/// A disk in memory, or a file.
#[derive(Drop)]
pub enum EitherDisk<M: Disk, F: Disk> {
    Memory(M),
    File(F),
}

impl<M: Disk, F: Disk> Disk for EitherDisk<M, F> {
    ghost seen = { shown M.Disk.seen F.Disk.seen };

    ghost may_leave = { Leaves M.Disk.may_leave F.Disk.may_leave };

    ghost is_usable = { shown M.Disk.is_usable F.Disk.is_usable };

    ghost faults = { shown M.Disk.faults F.Disk.faults };

    ghost tally_of = { shown M.Disk.tally_of F.Disk.tally_of };

    ghost is_clean = { shown M.Disk.is_clean F.Disk.is_clean };

    ghost key_of = { shown M.Disk.key_of F.Disk.key_of };

    ghost is_fair = { shown M.Disk.is_fair F.Disk.is_fair };

    ghost is_mixing = { shown M.Disk.is_mixing F.Disk.is_mixing };

    ghost seen_may_stay = { of_each _ M.Disk.seen_may_stay F.Disk.seen_may_stay };

    ghost fair_if_clean = { of_each _ M.Disk.fair_if_clean F.Disk.fair_if_clean };

    fn mixes(&self) -> bool {
        match self {
            EitherDisk::Memory(disk) => disk.mixes(),
            EitherDisk::File(disk) => disk.mixes(),
        }
    }

    fn key(&self) -> u64 {
        match self {
            EitherDisk::Memory(disk) => disk.key(),
            EitherDisk::File(disk) => disk.key(),
        }
    }

    fn tally(&self) -> Tally {
        match self {
            EitherDisk::Memory(disk) => disk.tally(),
            EitherDisk::File(disk) => disk.tally(),
        }
    }

    fn may_be_used(&self) -> bool {
        match self {
            EitherDisk::Memory(disk) => disk.may_be_used(),
            EitherDisk::File(disk) => disk.may_be_used(),
        }
    }

    fn len(&mut self) -> io::Result<usize> {
        match self {
            EitherDisk::Memory(disk) => disk.len(),
            EitherDisk::File(disk) => disk.len(),
        }
    }

    fn read_at(&mut self, at: usize, buf: &mut [u8]) -> io::Result<()> {
        match self {
            EitherDisk::Memory(disk) => disk.read_at(at, buf),
            EitherDisk::File(disk) => disk.read_at(at, buf),
        }
    }

    fn read_checked(&mut self, key: u64, want: u64, at: usize, buf: &mut [u8]) -> io::Result<()> {
        match self {
            EitherDisk::Memory(disk) => disk.read_checked(key, want, at, buf),
            EitherDisk::File(disk) => disk.read_checked(key, want, at, buf),
        }
    }

    fn write_at(&mut self, at: usize, bytes: &[u8]) -> io::Result<()> {
        match self {
            EitherDisk::Memory(disk) => disk.write_at(at, bytes),
            EitherDisk::File(disk) => disk.write_at(at, bytes),
        }
    }

    fn set_len(&mut self, len: usize) -> io::Result<()> {
        match self {
            EitherDisk::Memory(disk) => disk.set_len(len),
            EitherDisk::File(disk) => disk.set_len(len),
        }
    }

    fn sync(&mut self) -> io::Result<()> {
        match self {
            EitherDisk::Memory(disk) => disk.sync(),
            EitherDisk::File(disk) => disk.sync(),
        }
    }
}
