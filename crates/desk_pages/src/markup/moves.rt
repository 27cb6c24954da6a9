//! The moves of a request that are offered.

/// The number of the request, and the caller.
pub(crate) const MOVES_TOP: &str = r#"<form method="post" action="/desk/requests/{}/status">
<input type="hidden" name="me" value="{}">
<fieldset>
<legend>Move it to</legend>
"#;

/// Whether it is offered; the status, the word for its class, and the status.
pub(crate) const OFFER: &str =
    r#"[<button name="status" value="{}"><span class="state {}">{}</span></button>
]"#;

/// Whether there is anything behind it.
pub(crate) const FOLD_TOP: &str = r#"[<details class="more">
<summary>More</summary>
<div>
]"#;

/// Whether there was anything behind it.
pub(crate) const FOLD_END: &str = r#"[</div>
</details>
]"#;

pub(crate) const MOVES_END: &str = r#"</fieldset>
</form>
"#;
