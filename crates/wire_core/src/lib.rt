//! What comes in from outside, and what it asks of the desk: messages are read, done and answered.
//! Below it, `message_core` has the bytes of messages and replies, `route_core` what a message asks
//! for, and `desk_words` the words of a line; what crates above need of them is passed on.
//!
//! `serve_one` answers `Ok` where the whole reply went out. After `Write` the same step was made, and
//! a part of its bytes went out that lacks a byte or more. After `Read` nothing was written, and the
//! tables are as before. `NoMemory` is never its answer. It is `serve_one_counted` by new counters,
//! whose contract says that `Read` and `Write` come of a failed call alone. `serve_list` is a run of
//! such steps over bytes in memory, where an element that is `NoMemory` changes nothing. A message
//! that asks for no command has its reply and leaves the tables, whatever they are. `answer_request`
//! answers a message that was read elsewhere.
#![tactic(auto)]

mod answer;
mod fault;
pub mod laws;
mod list;
mod replies;
mod room;
mod serve;
mod step;

pub use answer::{answer_fault, answer_request};
pub use desk_words::{WordsFault, command_of_words, number_of_word, words_of};
pub use fault::ServeFault;
pub use list::{serve_bytes, serve_list};
pub use message_core::{Allow, Message, Reply, WireFault, answer_bytes, put_reply, read_message};
pub use replies::{code_of_refusal, is_head};
pub use route_core::{CommandFault, Routes, command_of};
pub use serve::{serve_one, serve_one_counted};
