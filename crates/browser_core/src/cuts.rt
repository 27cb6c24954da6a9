//! Bytes are cut at a stop.
ghost use Rattle.std.specs.Prelude.{◌≡◌};
ghost use Rattle.std.specs.Option.{option_map};
ghost use Rattle.browser_core.specs.Cuts as cuts;

/// What stands before the first stop, or all, and what stands after it, if there is one.
#[tactic(auto, using(crate::proofs::Stops::stops, crate::proofs::Stops::goes_on, crate::proofs::Stops::rest_stops, crate::proofs::Stops::rest_goes_on))]
pub fn cut(bytes: &[u8], stop: u8) -> (&[u8], Option<&[u8]>)
    ensures before { result.0.now ≡ cuts.before stop bytes.now }
    ensures after { option_map (λ r. r.now) result.1 ≡ cuts.rest_after stop bytes.now }
{
    for place in 0..bytes.len() {
        if bytes[place] == stop {
            return (&bytes[..place], Some(&bytes[place + 1..]));
        }
    }
    (bytes, None)
}

/// What stands before the first `=` of a piece, and what stands behind it; nothing where there is
/// none.
pub(crate) fn name_and_value(piece: &[u8]) -> (&[u8], &[u8])
    ensures name { result.0.now ≡ cuts.before 61 piece.now }
    ensures value { result.1.now ≡ cuts.value_in piece.now }
{
    let (name, value) = cut(piece, b'=');
    match value {
        Some(value) => (name, value),
        None => (name, &[]),
    }
}
