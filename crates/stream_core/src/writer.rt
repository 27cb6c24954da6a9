//! Writes that are counted, and texts that go out whole.

ghost use Rattle.std.specs.Prelude.{◌≡◌, ◌≤◌, ◌+◌, ◌||◌, ◌==◌, false, length, take};
ghost use Rattle.std.specs.Io.KnownBytes.{Appends};

use std::io::Write;

/// A writer, how often it was called, and whether a call failed.
#[derive(Drop)]
pub struct CountedWriter<'w, W> {
    writer: &'w mut W,
    writes: u64,
    failed: bool,
}

impl<'w, W: Write> CountedWriter<'w, W> {
    ghost use Rattle.stream_core.specs.Calls.{counted};
    ghost use Rattle.stream_core.specs.Seen.{HaveOneWriter, has_write_failed, held_in, writes_of};
    ghost use Rattle.stream_core.specs.Written.{IsWritten, Prints};

    /// A writer that wasn't called so far.
    pub fn new(writer: &'w mut W) -> CountedWriter<'w, W>
        ensures same_writer { result.writer.ghost_name ≡ writer.entry.ghost_name }
        ensures untouched { held_in W.contents result ≡ W.contents writer.old }
        ensures uncalled { writes_of result ≡ 0 }
        ensures unfailed { has_write_failed result ≡ false }
    {
        CountedWriter {
            writer,
            writes: 0,
            failed: false,
        }
    }

    /// How many writes were made. The count stays at the greatest u64.
    pub fn writes(&self) -> u64
        ensures { result ≡ writes_of self.now }
    {
        self.writes
    }

    /// Whether a write failed: it answered an error, or took no byte.
    pub fn failed(&self) -> bool
        ensures { result ≡ has_write_failed self.now }
    {
        self.failed
    }

    /// Writes the bytes, if no write failed before. A write that fails or takes no byte ends it.
    pub fn put(&mut self, bytes: &[u8])
        ensures same_writer { HaveOneWriter self.new self.old }
        ensures printed { Prints W.contents self.old self.new bytes.now }
    {
        if !self.failed {
            self.put_whole(bytes);
        }
    }

    /// Writes the bytes, each time those that are left.
    fn put_whole(&mut self, bytes: &[u8])
        requires { has_write_failed self.old ≡ false }
        ensures same_writer { HaveOneWriter self.new self.old }
        ensures written { IsWritten (has_write_failed self.new)
            (held_in W.contents self.old) (held_in W.contents self.new) bytes.now }
        ensures counted { writes_of self.new ≤ writes_of self.old + length bytes.now }
    {
        let mut taken = 0;
        while taken < bytes.len() {
            let count = self.write(&bytes[taken..]);
            if count == 0 {
                return;
            }
            taken += count;
        }
    }

    /// One write: how many bytes the writer took, which is 0 where it failed.
    fn write(&mut self, bytes: &[u8]) -> usize
        ensures same_writer { HaveOneWriter self.new self.old }
        ensures bound { result ≤ length bytes.now }
        ensures bytes { Appends (held_in W.contents self.old) (held_in W.contents self.new)
            (take result bytes.now) }
        ensures counted { writes_of self.new ≡ counted (writes_of self.old) }
        ensures failed { has_write_failed self.new ≡ (has_write_failed self.old || (result == 0)) }
    {
        self.writes = self.writes.saturating_add(1);
        let taken = self.writer.write(bytes).unwrap_or(0);
        if taken == 0 {
            self.failed = true;
        }
        taken
    }
}
