//! The history of a request.

pub(crate) const HISTORY_TOP: &str = r#"<div class="request">
<section>
<h2>History</h2>
<ol class="history">
"#;

/// Its number, the word for its kind, its number, and who did it.
pub(crate) const ENTRY: &str = r#"<li id="e{}" class="{}"><p><i>{}</i> <span><b>{}</b>
"#;

/// The status.
pub(crate) const FILED: &str = r#"filed it as <b>{}</b>
"#;

/// The statuses before and after.
pub(crate) const MOVED: &str = r#"moved it from <b>{}</b> to <b>{}</b>
"#;

/// The owners before and after.
pub(crate) const OWNER_CHANGED: &str = r#"changed the owner from <b>{}</b> to <b>{}</b>
"#;

/// The levels before and after.
pub(crate) const LEVEL_CHANGED: &str = r#"changed the level from <b>{}</b> to <b>{}</b>
"#;

pub(crate) const REPLIED: &str = r#"replied
"#;

pub(crate) const COMMENTED: &str = r#"commented
"#;

/// The person and the role.
pub(crate) const PUT_IN: &str = r#"put <b>{}</b> into <b>{}</b>
"#;

/// The person and the role.
pub(crate) const TAKEN_OUT: &str = r#"took <b>{}</b> out of <b>{}</b>
"#;

/// The kind of the link, and the number of the other request twice.
pub(crate) const LINKED: &str = r#"linked it: <b>{}</b> <a href="/desk/requests/{}">{}</a>
"#;

/// The kind of the link, and the number of the other request twice.
pub(crate) const UNLINKED: &str = r#"unlinked it: <b>{}</b> <a href="/desk/requests/{}">{}</a>
"#;

/// The day and the time of its moment, twice.
pub(crate) const ENTRY_TIME: &str = r#"</span> <time datetime="{}T{}Z">{} {}</time></p>
"#;

/// The text.
pub(crate) const WRITTEN: &str = r#"<div dir="auto">{}</div>
"#;

pub(crate) const ENTRY_END: &str = r#"</li>
"#;

pub(crate) const HISTORY_END: &str = r#"</ol>
"#;

pub(crate) const NEWER_TOP: &str = r#"<section>
<h2>What came meanwhile</h2>
<ol class="history">
"#;

pub(crate) const NEWER_END: &str = r#"</ol>
</section>
"#;
