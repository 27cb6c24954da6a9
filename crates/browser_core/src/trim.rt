//! Bytes without the spaces and tabs round them.
ghost use Rattle.std.specs.Prelude.{◌≡◌};
ghost use Rattle.browser_core.specs.Trim as form;

fn is_blank(byte: u8) -> bool
    ensures { result ≡ form.is_blank byte }
{
    byte == b' ' || byte == b'\t'
}

/// The bytes without the spaces and tabs in front of them.
fn without_front(bytes: &[u8]) -> &[u8]
    ensures { result.now ≡ form.without_front bytes.now }
{
    let mut left = bytes;
    while let [first, rest @ ..] = left {
        if !is_blank(*first) {
            return left;
        }
        left = rest;
    }
    left
}

/// The bytes without the spaces and tabs behind them.
#[tactic(auto, using(crate::proofs::Trims::one_less, crate::proofs::Trims::no_less))]
fn without_back(bytes: &[u8]) -> &[u8]
    ensures { result.now ≡ form.without_back bytes.now }
{
    let mut end = bytes.len();
    while end > 0 && is_blank(bytes[end - 1]) {
        end -= 1;
    }
    &bytes[..end]
}

/// The bytes without the spaces and tabs round them.
pub fn trimmed(bytes: &[u8]) -> &[u8]
    ensures { result.now ≡ form.trimmed bytes.now }
{
    without_back(without_front(bytes))
}
