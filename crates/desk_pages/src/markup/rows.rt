//! A table of requests that were found.

/// Its caption.
pub(crate) const TABLE_TOP: &str = r#"<table class="list">
<caption>{}</caption>
<thead><tr><th scope="col">No.</th><th scope="col">Subject</th><th scope="col">Queue</th><th scope="col">Status</th><th scope="col">Waits for</th><th scope="col">Owner</th><th scope="col">Due</th><th scope="col">Last entry</th></tr></thead>
<tbody>
"#;

/// The class of its status, whose it is, and whether it is late; its number twice, and its
/// subject.
pub(crate) const ROW_TOP: &str =
    r#"<tr class="{}[ mine][ nobody][ late]"><td>{}</td><th scope="row"><a href="/desk/requests/{}" dir="auto">{}</a> "#;

/// A requestor.
pub(crate) const ASKING: &str = r#"<small>{}</small> "#;

/// Its queue, the class of its status, its status, for whom it waits, and its owner.
pub(crate) const ROW_CELLS: &str =
    r#"</th><td>{}</td><td><span class="state {}">{}</span></td><td class="waits">{}</td><td class="owner">{}</td><td>"#;

/// Whether it is late, and for how long; the day and the time of its last entry, twice.
pub(crate) const ROW_END: &str =
    r#"[ <strong>{} late</strong>]</td><td><time datetime="{}T{}Z">{} {}</time></td></tr>
"#;
