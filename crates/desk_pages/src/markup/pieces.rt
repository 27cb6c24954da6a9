//! Pieces that several pages have.

/// The day and the time of a moment, twice.
pub(crate) const TIME: &str = r#"<time datetime="{}T{}Z">{} {}</time>"#;

pub(crate) const NO_TIME: &str = r#"–"#;

/// Whether it is chosen at first, and its name.
pub(crate) const CHOICE: &str = r#"<option[ selected]>{}</option>
"#;

/// The end of a table, and what is said where it shows no row.
pub(crate) const TABLE_END: &str = r#"</tbody>
</table>
<p class="none">There are none of these.</p>
"#;
