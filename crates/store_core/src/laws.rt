//! What leads from a decision to the tables.
ghost use Rattle.store_core.specs.Due.{RenewsDues};
ghost use Rattle.store_core.specs.Written.{CanBeWritten};

/// On a well-formed desk, the change of a command that isn't refused can be written: what it names
/// is there, what it puts isn't there yet, and it carries the stays of the request on which it
/// begins one.
#[tactic(auto, using(crate::proofs::WritableByKind::change_writable))]
pub fn writing_law()
    ensures { CanBeWritten }
{}

/// On a well-formed desk whose tables keep when each request is due, the change of a command that
/// isn't refused makes them keep when each is due on the desk after it.
pub fn renewing_law()
    ensures { RenewsDues }
{}
