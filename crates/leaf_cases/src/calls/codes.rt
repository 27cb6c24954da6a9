//! Calls on bytes that are written in hexadecimal digits.

use session_core::hmac_sha256;
use std::alloc::{AllocError, Global};

/// `hmac KEY MESSAGE`: the HMAC-SHA-256 of the message.
pub(crate) fn hmac_answer(alloc: Global, words: &[String]) -> Result<Option<String>, AllocError> {
    let (key, message) = match words {
        [key, message] => (key.as_str(), message.as_str()),
        _ => return Ok(None),
    };
    match (hex::decode(alloc, key), hex::decode(alloc, message)) {
        (Ok(key), Ok(message)) => {
            let code = hmac_sha256(key.as_slice(), message.as_slice());
            Ok(Some(hex::encode(alloc, code)?))
        }
        _ => Ok(None),
    }
}
