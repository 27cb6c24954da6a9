//! What HTTP asks of a server beside the form of messages: the host that a message names, its
//! target in origin form, what it expects before its body is sent, and the date of a reply.
//!
//! - `by_rules` takes what was read so: a message that doesn't name its host is `BadHead`, and a
//!   target that is a whole address becomes its path.
//! - `is_expecting` tells the messages that `expectation_failed` answers, and `stated_by_rules` how
//!   many bytes follow a head.
//! - `dated_reply` puts the line `Date` into a reply. By `laws::back_law` whoever takes it away
//!   with `undated_reply` has the reply as it was.
#![tactic(auto)]

mod date;
mod expectation;
mod head;
mod host;
pub mod laws;
mod rules;
mod target;

pub use date::{dated_reply, undated_reply};
pub use expectation::{expectation_failed, is_expecting, stated_by_rules};
pub use rules::by_rules;
