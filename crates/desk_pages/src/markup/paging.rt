//! How many were found, which of them the page shows, and the ways to other pages of them.

/// Whether the page shows the one that was found, or all of them, or some of which it is known which
/// ones they are, or just how many; whether there is a first page, one before this one and one after
/// it. How many were found; the first and the last of the page, and how many were found; how many
/// the page has, and how many were found; the fields of the search, and for the latter two ways from
/// where on.
pub(crate) const PAGING: &str =
    r#"<p class="paging">[1 request][{} requests][{} to {} of {}][{} of {}][ <a href="/desk/find?{}">First</a>][ <a rel="prev" href="/desk/find/before/{}?{}">Previous</a>][ <a rel="next" href="/desk/find/after/{}?{}">Next</a>]</p>
"#;
