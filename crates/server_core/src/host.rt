//! What a server needs of the system.
ghost use Rattle.std.specs.Prelude.{◌≡◌, ℕ, [], ◌∷◌, List, None, Option, IfOk, OnOk, OnErr};
ghost use Rattle.std.specs.Io.{ReadsAtMost, WritesAtMost};
ghost use Rattle.std.specs.Io.KnownBytes.{ReadConsumes, WriteAppends};
ghost use Rattle.server_core.specs.Calls.{Accepts, Adds, At, Begins, Call, Reads, Waits, Writes};
ghost use Rattle.server_core.specs.Calls.{accepted_of, got_of};
ghost use Rattle.server_core.specs.Host.{Told, TellsLine, TellsMinute, TellsMoment};
ghost use Rattle.server_core.specs.Host.{accept_fails, accept_works, wait_fails};

use std::io;

/// What a stream may be ready for.
#[derive(Clone, Copy, Debug, PartialEq, Eq)]
pub struct Readiness {
    pub readable: bool,
    pub writable: bool,
}

/// The network can't be used.
#[derive(Clone, Copy, Debug, PartialEq, Eq)]
pub struct NetFault;

/// The network and the clock, as a server sees them.
pub trait Host {
    /// A connection.
    type Stream: Drop;

    /// What it has told: which calls have failed, the moments and minutes of turns, and its log.
    ghost told: { Self → Told };

    /// What it was asked of the network, where it keeps that.
    ghost calls: { Self → Option (List Call) } = { λ _. None };

    /// The bytes that reads of a stream give from here on, where they are known.
    ghost remaining: { Self.Stream → Option (List ℕ) } = { λ _. None };

    /// The bytes that a stream was given, where they are known.
    ghost contents: { Self.Stream → Option (List ℕ) } = { λ _. None };

    /// The next connection that waits, if one does. From then on it is watched under this place.
    fn accept(&mut self, place: usize) -> Result<Option<Self::Stream>, NetFault>
        ensures ok { OnOk result (told self.new ≡ accept_works (told self.old)) }
        ensures err { OnErr result (told self.new ≡ accept_fails (told self.old)) }
        ensures calls { Adds (calls self.old) (calls self.new)
            (Accepts place (accepted_of result) ∷ []) };

    /// One read of the stream at this place. `WouldBlock` where it would wait.
    fn read(
        &mut self,
        place: usize,
        stream: &mut Self::Stream,
        buffer: &mut [u8],
    ) -> io::Result<usize>
        ensures bound { ReadsAtMost result buffer.new }
        ensures bytes { ReadConsumes (remaining stream.old) (remaining stream.new) result buffer.new }
        ensures told { told self.new ≡ told self.old }
        ensures calls { Adds (calls self.old) (calls self.new) (At place (Reads (got_of result)) ∷ []) };

    /// One write to the stream at this place. `WouldBlock` where it would wait.
    fn write(&mut self, place: usize, stream: &mut Self::Stream, bytes: &[u8]) -> io::Result<usize>
        ensures bound { WritesAtMost result bytes.now }
        ensures bytes { WriteAppends (contents stream.old) (contents stream.new) result bytes.now }
        ensures told { told self.new ≡ told self.old }
        ensures calls { Adds (calls self.old) (calls self.new) (At place (Writes (got_of result)) ∷ []) };

    /// No more is written to the stream.
    fn shut(&mut self, stream: &Self::Stream)
        ensures told { told self.new ≡ told self.old }
        ensures calls { calls self.new ≡ calls self.old };

    /// The moment at which a wait begins: milliseconds from some moment on.
    fn wait_moment(&mut self) -> u64
        ensures told { told self.new ≡ told self.old }
        ensures calls { Adds (calls self.old) (calls self.new) (Begins result ∷ []) };

    /// Waits for so many milliseconds at most, and marks what streams became ready for since the
    /// last call, each at its place. Whether a connection may wait.
    fn wait(&mut self, milliseconds: u64, marks: &mut [Readiness]) -> Result<bool, NetFault>
        ensures ok { OnOk result (told self.new ≡ told self.old) }
        ensures err { OnErr result (told self.new ≡ wait_fails (told self.old)) }
        ensures calls { IfOk result (λ comes. Adds (calls self.old) (calls self.new)
            (Waits milliseconds marks.old marks.new comes ∷ [])) }
        ensures failed { OnErr result (calls self.new ≡ calls self.old) };

    /// Microseconds from the same moment on.
    fn micros(&mut self) -> u64
        ensures told { told self.new ≡ told self.old }
        ensures calls { calls self.new ≡ calls self.old };

    /// The moment of a turn: milliseconds from the same moment on.
    fn moment(&mut self) -> u64
        ensures told { TellsMoment (told self.old) (told self.new) result }
        ensures calls { calls self.new ≡ calls self.old };

    /// The minute of a turn since 1970-01-01 00:00 UTC, or 0 where the clock gives none.
    fn minute(&mut self) -> u32
        ensures told { TellsMinute (told self.old) (told self.new) result }
        ensures calls { calls self.new ≡ calls self.old };

    /// A message was answered at this minute, of which this is noted, by so many bytes and in so many
    /// microseconds.
    fn log(&mut self, minute: u32, note: &[u8], bytes: u64, micros: u64)
        ensures told { TellsLine (told self.old) (told self.new)
            (record { minute = minute; note = note.now; bytes = bytes }) }
        ensures calls { calls self.new ≡ calls self.old };
}
