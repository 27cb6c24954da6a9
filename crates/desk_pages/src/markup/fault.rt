//! The page of a fault.

/// The heading, the sentence and the code.
pub(crate) const FAULT: &str = r#"<h1>{}</h1>
<p class="alert">{} <code>{}</code></p>
<p><a class="button" href="/">To the queues</a></p>
"#;
