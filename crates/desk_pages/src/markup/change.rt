//! The part of a request's page by which it is changed.

/// Whether it is unfolded.
pub(crate) const CHANGE_TOP: &str = r#"<details class="change"[ open]>
<summary>Change it</summary>
"#;

pub(crate) const CHANGE_END: &str = r#"</details>
"#;

/// The end of the page's content.
pub(crate) const CONTENT_END: &str = r#"</div>
"#;
