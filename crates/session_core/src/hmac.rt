//! HMAC-SHA-256.

ghost use Rattle.std.specs.Prelude.{◌≡◌, ◌≤◌, length};
ghost use Rattle.session_core.specs.Hmac as spec;

use sha2::{Digest, Sha256};

/// The bytes of a block of SHA-256.
const BLOCK: usize = 64;

/// The HMAC-SHA-256 of a message, keyed by these bytes.
#[tactic(auto, unfolding(crate::specs::Hmac::hmac))]
pub fn hmac_sha256(key: &[u8], message: &[u8]) -> [u8; 32]
    ensures { result ≡ spec.hmac key.now message.now }
{
    let block = block_of(key);
    let mut inner = Sha256::new();
    inner.update(padded(&block, 0x36));
    inner.update(message);
    let digest = inner.finalize();
    let mut outer = Sha256::new();
    outer.update(padded(&block, 0x5c));
    outer.update(digest);
    outer.finalize()
}

/// The block of a key.
fn block_of(key: &[u8]) -> [u8; 64]
    ensures { result ≡ spec.filled (spec.short_key key.now) }
{
    if key.len() <= BLOCK {
        filled(key)
    } else {
        let digest = Sha256::digest(key);
        filled(&digest)
    }
}

/// A key of at most a block with zeros at the end, up to a block.
fn filled(key: &[u8]) -> [u8; 64]
    requires { length key.now ≤ 64 }
    ensures { result ≡ spec.filled key.now }
{
    let mut block = [0u8; 64];
    for i in 0..key.len() {
        block[i] = key[i];
    }
    block
}

/// Each byte of a block XOR this one.
fn padded(block: &[u8; 64], byte: u8) -> [u8; 64]
    ensures { result ≡ spec.padded byte block.now }
{
    let mut pad = [0u8; 64];
    for i in 0..64 {
        pad[i] = byte ^ block[i];
    }
    pad
}
