//! What a message asks of the desk: the row of the table to which its method and its path lead, the
//! caller of its token, and the command that its body says.
//!
//! - `command_of` gives the caller and the command, or the first fault of `NoRoute`, `BadMethod`,
//!   `NoToken` and `BadBody`. `NoMemory` may come in place of any answer.
//! - `command_by` has the same answers with a router to look by, which a server or a list of messages
//!   makes once. The row that it finds is laid against the path. Where that doesn't fit, or none is
//!   found, all rows are: so nothing rests on what the router answers. Its reason for asking nothing
//!   tells the methods of the place, where the message has another one; out of memory it has none.
//! - A path is laid against the rows by its parts between slashes. Nothing in it is decoded, and no
//!   memory is had for it. By `rows_law` no two rows have a method and a path in common.
#![tactic(auto)]

mod command;
mod cuts;
mod fault;
pub mod laws;
mod members;
mod places;
mod routes;
mod said;

pub use command::{command_by, command_of};
pub use fault::{CommandFault, Unasked};
pub use routes::Routes;
