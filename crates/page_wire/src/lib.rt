//! A message that asks for a page: what it asks for is done, and the page is made of the answer.
//!
//! `read_sent` reads whatever comes, once, and `answer_sent` answers what was read: a message at a
//! place of the pages by the step of its visit, `/health` whether the desk is there, and any other by
//! the interface's step, byte for byte.
//!
//! A form may ask for two commands. The second is done only after the first, and where it is refused
//! the reply says what was done and what wasn't. A new request is filed with its first text, by one
//! step. Before the first, a text that is sent to a request is
//! held back where it was sent already, or where somebody wrote while it was written.
#![tactic(auto)]

mod done;
mod faults;
mod follow_up;
mod head_only;
mod health;
pub mod laws;
mod next;
mod overtaken;
mod pages;
mod redirect;
mod render;
mod replies;
mod serve;
mod sign_in;
mod submit;
mod twice;
mod unsent;
mod visits;

pub use serve::{answer_sent, read_sent};
