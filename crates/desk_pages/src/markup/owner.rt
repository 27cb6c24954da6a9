//! The forms by which a request gets another owner.

/// The number of the request, and the caller.
pub(crate) const TAKE: &str =
    r#"<form method="post" action="/desk/requests/{}/take"><input type="hidden" name="me" value="{}"><button>Take it</button></form>
"#;

/// The number of the request, and the caller.
pub(crate) const UNTAKE: &str =
    r#"<form method="post" action="/desk/requests/{}/untake"><input type="hidden" name="me" value="{}"><button>Untake it</button></form>
"#;

/// The number of the request, the caller, and its owner.
pub(crate) const STEAL: &str =
    r#"<form method="post" action="/desk/requests/{}/steal"><input type="hidden" name="me" value="{}"><button>Steal it from {}</button></form>
"#;

/// The number of the request, and the caller.
pub(crate) const GIVE: &str = r#"<form method="post" action="/desk/requests/{}/give">
<input type="hidden" name="me" value="{}">
<label for="person">Give it to</label>
<input id="person" name="person" list="owners" autocapitalize="none" spellcheck="false" autocomplete="off" required>
<button>Give</button>
</form>
"#;
