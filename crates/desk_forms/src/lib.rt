//! The table of commands: what each is given, the words and the paths that ask for it, and the
//! command that it makes. Words, bodies and the fields of forms are read over it: a reader shows
//! what it was given as a sheet, and `command_from` is the one way from a sheet to a command, or to
//! none.
//!
//! - `args_of`, `words` and `paths` are the table, exactly.
//! - By `given_law` what was given makes the same command whatever the values were before, so no
//!   blank is seen. By `many_law` texts make no difference where no argument is many.
//! - `role_named`, `kind_named` and `linking` are roles and kinds of links by their names, where an
//!   inverse changes the ends.
#![tactic(auto)]

pub mod argument_source;
pub mod arguments;
pub mod keys;
pub mod kinds;
pub mod laws;
pub mod links;
pub mod number;
pub mod paths;
pub mod roles;
pub mod table;
pub mod words;

pub use number::number_of_word;
