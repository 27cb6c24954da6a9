//! What is told of a request before its history.

/// The class of its status, its status and its owner; whether it is late.
pub(crate) const FACTS_TOP: &str = r#"<dl class="facts">
<div><dt>Status</dt><dd><span class="state {}">{}</span></dd></div>
<div><dt>Owner</dt><dd>{}</dd></div>
<div[ class="late"]><dt>Due</dt><dd>"#;

/// Whether it is late; its level; the day and the time when it was filed, twice.
pub(crate) const LEVEL: &str = r#"[ <strong>late</strong>]</dd></div>
<div><dt>Level</dt><dd>{}</dd></div>
<div><dt>Filed</dt><dd><time datetime="{}T{}Z">{} {}</time>"#;

pub(crate) const FILED_END: &str = r#"</dd></div>
"#;

pub(crate) const FACTS_END: &str = r#"</dl>
"#;

/// The day and the time.
pub(crate) const LOCAL: &str = r#" <small>{} {} local</small>"#;
