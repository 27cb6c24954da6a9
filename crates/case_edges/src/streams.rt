//! Readers and writers that do less than they could.
//!
//! All cases read by this one reader and write by this one writer, also where neither fails: each
//! more type is what the product does once more, in the program that is built and in its proof.

use std::alloc::Global;
use std::io::{Error, ErrorKind, Read, Result, Write};

/// A reader that gives one byte at a time, or all that there is room for. It may fail after a number
/// of reads, or never end: then other bytes come after its own.
#[derive(Drop)]
pub(crate) struct Slow<'b> {
    pub(crate) bytes: &'b [u8],
    pub(crate) reads: u32,
    most: usize,
    fails_at: Option<u32>,
    ends: bool,
}

impl<'b> Slow<'b> {
    pub(crate) fn over(bytes: &'b [u8]) -> Slow<'b> {
        Slow {
            bytes,
            reads: 0,
            most: 1,
            fails_at: None,
            ends: true,
        }
    }

    /// One that gives all that there is room for.
    pub(crate) fn at_once(bytes: &'b [u8]) -> Slow<'b> {
        Slow {
            most: usize::MAX,
            ..Slow::over(bytes)
        }
    }

    pub(crate) fn failing(bytes: &'b [u8], reads: u32) -> Slow<'b> {
        Slow {
            fails_at: Some(reads),
            ..Slow::over(bytes)
        }
    }

    pub(crate) fn endless(bytes: &'b [u8]) -> Slow<'b> {
        Slow {
            ends: false,
            ..Slow::over(bytes)
        }
    }
}

impl Read for Slow<'_> {
    fn read(&mut self, buf: &mut [u8]) -> Result<usize> {
        let fails = self.fails_at == Some(self.reads);
        self.reads = self.reads.saturating_add(1);
        if fails {
            return Err(Error::from(ErrorKind::BrokenPipe));
        }
        if !self.ends && self.bytes.is_empty() && !buf.is_empty() {
            buf[0] = b'#';
            return Ok(1);
        }
        let count = self.most.min(self.bytes.len()).min(buf.len());
        for place in 0..count {
            match self.bytes.split_first() {
                Some((first, rest)) => {
                    buf[place] = *first;
                    self.bytes = rest;
                }
                None => return Ok(place),
            }
        }
        Ok(count)
    }
}

/// A writer that takes a byte at a time, or all, but for one write that fails, or takes none. It
/// would take more afterwards.
#[derive(Drop)]
pub(crate) struct Faltering {
    pub(crate) taken: Vec<u8>,
    pub(crate) writes: u32,
    most: usize,
    falters_at: u32,
    fails: bool,
}

impl Faltering {
    /// One that falters after so many writes.
    pub(crate) fn after(alloc: Global, falters_at: u32, fails: bool) -> Faltering {
        Faltering {
            taken: Vec::new(alloc),
            writes: 0,
            most: 1,
            falters_at,
            fails,
        }
    }

    /// One that takes all.
    pub(crate) fn never(alloc: Global) -> Faltering {
        Faltering {
            taken: Vec::new(alloc),
            writes: 0,
            most: usize::MAX,
            falters_at: u32::MAX,
            fails: true,
        }
    }
}

impl Write for Faltering {
    fn write(&mut self, buf: &[u8]) -> Result<usize> {
        let falters = self.writes == self.falters_at;
        self.writes = self.writes.saturating_add(1);
        if !falters && !buf.is_empty() {
            let count = buf.len().min(self.most);
            self.taken.extend_from_slice(&buf[..count])?;
            Ok(count)
        } else if self.fails {
            Err(Error::from(ErrorKind::BrokenPipe))
        } else {
            Ok(0)
        }
    }

    fn flush(&mut self) -> Result<()> {
        Ok(())
    }
}
