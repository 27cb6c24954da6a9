//! A desk over tables, as a server of many connections sees it.
//!
//! `WebDesk` answers a message, of the pages or of the interface, by the bytes of `answer_sent` on
//! just what came, read once, at the minute of the turn in which it was whole. Where that finds no
//! memory the reply is fixed bytes of the program. What was read is taken by HTTP's rules: without
//! its host it is no message, its target is in origin form, and nothing is done for one that
//! expects something before its body. Each reply has the line `Date`, of the second that its
//! `System` tells. After each message it looks whether its store is shut. It is served on unless
//! that is so, or somebody who may has asked the server to stop. Where one asks for a copy of the
//! tables, its `System` makes it between two messages. The log notes what of the message it may
//! tell. Behind a proxy an address from which ten wrong tokens came within a minute gets 429 for
//! further ones, until the minute is over; where there is no memory to look at a token, it gets 503.
//!
//! `serve_web` has both clauses: what happens to the tables is a run of such steps, and the
//! server's own history.
#![tactic(auto)]

mod control;
mod date;
mod desk;
mod guessing;
pub mod laws;
mod note;
mod serve_all;
mod shut;
mod system;
mod web;

pub use desk::WebDesk;
pub use serve_all::serve_web;
pub use system::System;
