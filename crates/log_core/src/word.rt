//! One word of a line.
ghost use Rattle.std.specs.Prelude.{◌≡◌, ◌++◌, ◌≤◌, IfOk, codes, length, map, take};
ghost use Rattle.log_core.specs.Log as form;

use std::alloc::AllocError;

/// A visible character of ASCII, or a question mark in place of any other byte.
fn shown(byte: u8) -> u8
    ensures { result ≡ form.shown byte }
{
    if (33..=126).contains(&byte) {
        byte
    } else {
        b'?'
    }
}

/// Puts the first bytes, at most so many, at the end, and a dash where there are none.
pub(crate) fn put_word(out: &mut Vec<u8>, most: usize, bytes: &[u8]) -> Result<(), AllocError>
    ensures { IfOk result (λ _. out.new.items ≡ out.old.items ++ form.word most bytes.now) }
{
    if bytes.is_empty() {
        return out.extend_from_slice(b"-");
    }
    put_shown(out, &bytes[..most.min(bytes.len())])
}

/// Puts each of the bytes at the end, as it is shown.
fn put_shown(out: &mut Vec<u8>, bytes: &[u8]) -> Result<(), AllocError>
    ensures { IfOk result (λ _. out.new.items ≡ out.old.items ++ map form.shown bytes.now) }
{
    for byte in bytes {
        out.push(shown(*byte))?;
    }
    Ok(())
}
