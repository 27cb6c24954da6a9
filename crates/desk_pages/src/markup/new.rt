//! The page for a new request.

/// The queue, three times.
pub(crate) const NEW_TOP: &str =
    r#"<p class="crumb"><a href="/">Queues</a> / <a href="/desk/queues/{}">{}</a></p>
<h1>New request in {}</h1>
"#;
