//! The page of a new request that its filer may not see.

/// The number of the request.
pub(crate) const FILED: &str = r#"<h1>Your request is filed</h1>
<p>It is request {}. You may not see it, so no more is told of it here.</p>
<p><a class="button" href="/">To the queues</a></p>
"#;
