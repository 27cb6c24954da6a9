//! What a server has of the system beside its network.
ghost use Rattle.std.specs.Prelude.{◌≡◌, ℕ, Option};
ghost use Rattle.web_core.specs.Control.{counted};

/// What copies the tables that are served, and tells the time.
pub trait System {
    /// How many whole copies it has put in their place, up to 2^64 - 1.
    ghost made: { Self → ℕ };

    /// The second that it has told last, if it told one.
    ghost told: { Self → Option ℕ };

    /// Copies the tables as they are on the disk. Whether a whole copy is in its place. No
    /// transaction is open when it is called, and it is given none of the desk's own.
    fn copy(&mut self) -> bool
        ensures { made self.new ≡ counted result (made self.old) };

    /// The second since 1970-01-01 00:00 UTC. None where the clock gives none.
    fn second(&mut self) -> Option<u64>
        ensures told { told self.new ≡ result }
        ensures made { made self.new ≡ made self.old };
}
