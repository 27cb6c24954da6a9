//! The names that are suggested where a person is asked.

pub(crate) const PEOPLE_TOP: &str = r#"<datalist id="people">
"#;

/// A name.
pub(crate) const PERSON: &str = r#"<option value="{}"></option>
"#;

/// Whether the owner is told, and whether the caller is; their names.
pub(crate) const PEOPLE_END: &str = r#"[<option value="{}"></option>
][<option value="{}"></option>
]</datalist>
"#;

pub(crate) const OWNERS_TOP: &str = r#"<datalist id="owners">
"#;

pub(crate) const OWNERS_END: &str = r#"</datalist>
"#;
