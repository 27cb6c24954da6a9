//! The machine of one connection: bytes come, the message that they make is answered, and the reply
//! goes out, each within a time.
//!
//! What comes is taken byte by byte, so how it is cut into pieces makes no difference. A message is
//! whole where its head has ended and as many bytes of a body have come as the head states. It is
//! handed over then, and once. The framing, which tells the length of a body by its head, and which
//! heads are refused, decides only that. What the message means the desk says: so a wrong length
//! makes a refusal or a wait, and no false reply.
//!
//! There are 30 seconds from accept to the whole message, and 30 from the answer to the last byte of
//! the reply. Then it is over as soon as nothing waits to be read; where more than its message came
//! or may come, that is dropped for two seconds. No byte puts a deadline off.
#![tactic(auto)]

mod connection;
mod framing;
pub mod laws;
mod phase;
mod reply;

pub use connection::{Connection, READING};
pub use framing::Framing;
pub use phase::{Part, Phase};
pub use reply::Reply;
