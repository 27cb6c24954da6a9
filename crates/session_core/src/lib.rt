//! Sessions of browsers: the cookie of one who signed in, and for whom a cookie stands.
//!
//! A cookie is `PERSON.EXPIRES.MAC`. `EXPIRES` is the minute at which the session ends, and `MAC`
//! is the HMAC-SHA-256 of both, keyed by a token of the person. So nothing is kept of a session,
//! and it goes on after a restart. Whoever sees a cookie doesn't learn the token, but can try
//! guesses of it.
//!
//! - `signed_in` gives the cookie of the token that was typed: for 12 hours or for 30 days.
//! - `caller_of` gives the person for whom a cookie stands at a minute, if it stands for one.
//! - `hmac_sha256` and `are_same` are the codes, and how they are compared: over all bytes.
//!
//! `laws` says what holds of them together.
#![tactic(auto)]

mod compare;
mod hmac;
pub mod laws;
mod seal;
mod session;

pub use compare::are_same;
pub use hmac::hmac_sha256;
pub use session::{Lasts, caller_of, signed_in};
