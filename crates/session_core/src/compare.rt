//! Bytes are compared over all of them.

ghost use Rattle.std.specs.Prelude.{◌≡◌};
ghost use Rattle.std.specs.Str.{bytes_eq};

/// Whether the bytes are the same. Each byte is looked at, whatever the others are: only the
/// lengths decide how many are.
pub fn are_same(one: &[u8], other: &[u8]) -> bool
    ensures { result ≡ bytes_eq one.now other.now }
{
    if one.len() != other.len() {
        return false;
    }
    let mut difference = 0u8;
    for i in 0..one.len() {
        difference |= one[i] ^ other[i];
    }
    difference == 0
}
