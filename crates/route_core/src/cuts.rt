//! Bytes up to a stop, and after it.

ghost use Rattle.std.specs.Prelude.{◌≡◌};
ghost use Rattle.std.specs.Option.{option_map};
ghost use Rattle.route_core.specs.Cuts as cuts;

use std::str;

/// What stands before the first stop, and what follows it; or all, where there is none.
#[tactic(auto, using(crate::proofs::CutLemmas::stops, crate::proofs::CutLemmas::goes_on))]
pub(crate) fn cut(bytes: &[u8], stop: u8) -> (&[u8], Option<&[u8]>)
    ensures { (result.0.now, option_map (λ r. r.now) result.1) ≡ cuts.cut stop bytes.now }
{
    for place in 0..bytes.len() {
        if bytes[place] == stop {
            return (&bytes[..place], Some(&bytes[place + 1..]));
        }
    }
    (bytes, None)
}

/// The bytes as a text, if they are one.
pub(crate) fn text_in(bytes: &[u8]) -> Option<&str>
    ensures { option_map (λ t. t.now) result ≡ cuts.text_in bytes.now }
{
    match str::from_utf8(bytes) {
        Ok(text) => Some(text),
        Err(_) => None,
    }
}
