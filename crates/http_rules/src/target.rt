//! The target of a message in origin form.
ghost use Rattle.std.specs.Prelude.{◌≡◌, ◌≤◌, ◌||◌, ◌==◌, IfOk, IsTrue, length};
ghost use Rattle.std.specs.Option.{option_map};
ghost use Rattle.http_rules.specs.Target as form;

use message_core::Request;
use std::alloc::{AllocError, Global};
use text_core::Sequence;

/// The same message with its target in origin form: of a whole address what stands behind the host.
pub(crate) fn in_origin_form(alloc: Global, request: Request) -> Result<Request, AllocError>
    ensures { IfOk result (λ new. new ≡ form.in_origin_form request) }
{
    let Some(behind) = behind_scheme(request.message.target.as_slice()) else {
        return Ok(request);
    };
    let target = with_slash(alloc, from_path(behind))?;
    let mut request = request;
    request.message.target = Sequence::from(target);
    Ok(request)
}

/// What stands behind the scheme of a whole address.
fn behind_scheme(target: &[u8]) -> Option<&[u8]>
    ensures { option_map (λ r. r.now) result ≡ form.behind_scheme target.now }
{
    if begins_with(target, b"http://") {
        Some(&target[7..])
    } else if begins_with(target, b"https://") {
        Some(&target[8..])
    } else {
        None
    }
}

/// Whether a target begins with this scheme, in any case of its letters.
fn begins_with(target: &[u8], scheme: &[u8]) -> bool
    ensures is { result ≡ form.begins_with scheme.now target.now }
    ensures long { IsTrue result → length scheme.now ≤ length target.now }
{
    target.len() >= scheme.len() && target[..scheme.len()].eq_ignore_ascii_case(scheme)
}

/// What begins with the path or the query.
#[tactic(auto, using(crate::proofs::Paths::begins, crate::proofs::Paths::not_yet))]
fn from_path(bytes: &[u8]) -> &[u8]
    ensures { result.now ≡ form.from_path bytes.now }
{
    for place in 0..bytes.len() {
        if begins_path(bytes[place]) {
            return &bytes[place..];
        }
    }
    &[]
}

/// A slash, or the question mark of a query without a path.
fn begins_path(byte: u8) -> bool
    ensures { result ≡ form.begins_path byte }
{
    byte == b'/' || byte == b'?'
}

/// A path, which begins with a slash.
fn with_slash(alloc: Global, path: &[u8]) -> Result<Vec<u8>, AllocError>
    ensures { IfOk result (λ out. out.items ≡ form.with_slash path.now) }
{
    let mut out = Vec::new(alloc);
    if path.is_empty() || path[0] != b'/' {
        out.push(b'/')?;
    }
    out.extend_from_slice(path)?;
    Ok(out)
}
