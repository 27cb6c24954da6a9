//! What is sought, above what was found.

pub(crate) const CHIPS_TOP: &str = r#"<p class="chips">Sought:"#;

/// Whether a part is sought: its field, the other fields of the search, and its words: those in
/// front of what was typed, that, and those behind it.
pub(crate) const CHIP: &str =
    r#"[ <a href="/desk/find?{}={}"><bdi>{}{}{}</bdi> <span aria-hidden="true">×</span><span class="off">, take this away</span></a>]"#;

pub(crate) const CHIPS_END: &str = r#"</p>
"#;
