//! What bytes begin with.

ghost use Rattle.std.specs.Prelude.{◌≡◌};
ghost use Rattle.std.specs.Option.{option_map};
ghost use Rattle.page_routes.specs.Fronts as fronts;

pub(crate) fn begins(path: &[u8], front: &str) -> bool
    ensures { result ≡ fronts.begins path.now front.now }
{
    path.len() >= front.len() && &path[..front.len()] == front.as_bytes()
}

/// What stands behind the front, where the path begins with it.
pub(crate) fn behind<'p>(front: &str, path: &'p [u8]) -> Option<&'p [u8]>
    ensures { option_map (λ r. r.now) result ≡ fronts.behind front.now path.now }
{
    if path.len() >= front.len() && &path[..front.len()] == front.as_bytes() {
        Some(&path[front.len()..])
    } else {
        None
    }
}
