//! Which release the programs are, what they were built from, and what they print of themselves.
#![tactic(auto)]

mod usage;

pub use usage::{print_alone, tell_wrong};

/// What `--version` tells behind the name of a program: the version, as the file `VERSION` has it,
/// and a line of 96 characters. Over this line `make desk` writes the commit and the toolchain in the
/// built program, so that no commit has to name itself.
pub const RELEASE: &str = "1.0.0
no commit is told: `make desk` didn't make this build                                           ";
