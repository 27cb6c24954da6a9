//! The page of a request.

/// Its queue twice, its number and its subject.
pub(crate) const REQUEST_TOP: &str =
    r#"<p class="crumb"><a href="/">Queues</a> / <a href="/desk/queues/{}">{}</a></p>
<h1 dir="auto"><span>#{}</span> {}</h1>
"#;

pub(crate) const REPLY_TOP: &str = r#"<div class="write" id="reply">
"#;

/// Whether nothing else may be written, and whether something else may.
pub(crate) const COMMENT_TOP: &str = r#"
<details[ open]>
<summary>Comment[ instead]</summary>
"#;

pub(crate) const COMMENT_END: &str = r#"
</details>"#;

/// Whether nothing may be written.
pub(crate) const WRITING_END: &str = r#"[<p>You may neither reply here nor comment.</p>]
</div>
</section>
"#;
