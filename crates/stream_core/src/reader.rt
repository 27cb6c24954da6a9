//! Reads that are counted.

ghost use Rattle.std.specs.Prelude.{◌≡◌, ◌≤◌, ◌+◌, ◌||◌, false};
ghost use Rattle.std.specs.Io.{ReadsAtMost};
ghost use Rattle.std.specs.Io.KnownBytes.{ReadConsumes};

use std::io::{Read, Result};

/// A reader, how often it was called, and whether a call failed.
#[derive(Drop)]
pub struct CountedReader<'r, R> {
    reader: &'r mut R,
    reads: u64,
    failed: bool,
}

impl<'r, R: Read> CountedReader<'r, R> {
    ghost use Rattle.std.specs.Prelude.{is_err};
    ghost use Rattle.stream_core.specs.Calls.{counted};
    ghost use Rattle.stream_core.specs.Seen.{HaveOneReader, has_read_failed, left_in, reads_of};

    /// A reader that wasn't called so far.
    pub fn new(reader: &'r mut R) -> CountedReader<'r, R>
        ensures same_reader { result.reader.ghost_name ≡ reader.entry.ghost_name }
        ensures untouched { left_in R.remaining result ≡ R.remaining reader.old }
        ensures uncalled { reads_of result ≡ 0 }
        ensures unfailed { has_read_failed result ≡ false }
    {
        CountedReader {
            reader,
            reads: 0,
            failed: false,
        }
    }

    /// How many reads were made. The count stays at the greatest u64.
    pub fn reads(&self) -> u64
        ensures { result ≡ reads_of self.now }
    {
        self.reads
    }

    /// Whether a read failed: it answered an error.
    pub fn failed(&self) -> bool
        ensures { result ≡ has_read_failed self.now }
    {
        self.failed
    }

    /// One read.
    pub fn read(&mut self, buf: &mut [u8]) -> Result<usize>
        ensures same_reader { HaveOneReader self.new self.old }
        ensures bound { ReadsAtMost result buf.new }
        ensures bytes { ReadConsumes (left_in R.remaining self.old)
            (left_in R.remaining self.new) result buf.new }
        ensures counted { reads_of self.new ≡ counted (reads_of self.old) }
        ensures failed { has_read_failed self.new ≡ (is_err result || has_read_failed self.old) }
    {
        self.reads = self.reads.saturating_add(1);
        let taken = self.reader.read(buf);
        if taken.is_err() {
            self.failed = true;
        }
        taken
    }
}
