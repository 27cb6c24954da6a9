//! Messages: bytes that are read off a stream, and the bytes of a reply.
#![tactic(auto)]

mod body;
mod fault;
mod head;
mod heading;
pub mod laws;
mod limits;
mod lines;
mod message;
mod reply;
mod reply_head;
mod request;
mod stated;
mod values;

pub use fault::WireFault;
pub use limits::BodyLimit;
pub use message::{Message, read_message, read_message_counted};
pub use reply::{Allow, Reply, answer_bytes, put_reply, unavailable_reply};
pub use reply_head::{add_text, end_head, start_head};
pub use request::{Request, read_request, read_request_counted};
pub use stated::stated_body;
pub use values::{header_value, header_values};
