//! A client of a served desk: from a command to the bytes of a message, and from the bytes of a reply
//! to its code and its text.
//!
//! - `message_bytes` writes the message that asks for a command, at the command's row of the table.
//! - By `read_law` a server reads these bytes as one message, which asks for just that command as the
//!   person of the token. Its parts are laws by themselves: `message_law` goes from the bytes to the
//!   message, `path_law` from the path to the row, and `asked_law` from the body to the command.
//! - `answer_in` takes just the replies that a desk makes. By `reply_law` each that has its text comes
//!   back.
#![tactic(auto)]

mod body;
mod fault;
pub mod laws;
mod message;
mod reply;
mod spelled;
mod target;

pub use fault::AskFault;
pub use message::{is_host, is_token, message_bytes};
pub use reply::{Answered, answer_in};
