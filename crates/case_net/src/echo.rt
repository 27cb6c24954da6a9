//! What a desk answers that echoes.

use std::alloc::{AllocError, Global};

/// The number, a colon and the message.
pub fn echo_of(alloc: Global, number: u64, message: &[u8]) -> Result<Vec<u8>, AllocError> {
    let number = format!(in alloc; "{number}:")?;
    let mut reply = Vec::from_slice(alloc, number.as_bytes())?;
    reply.extend_from_slice(message)?;
    Ok(reply)
}
