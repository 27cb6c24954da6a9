//! The forms by which a request gets another level, other watchers and other links.

/// The number of the request, and the caller.
pub(crate) const LEVEL_TOP: &str = r#"<form method="post" action="/desk/requests/{}/level">
<input type="hidden" name="me" value="{}">
<label for="level">Level</label>
<select id="level" name="level">
<option value="">none</option>
"#;

pub(crate) const LEVEL_END: &str = r#"</select>
<button>Set</button>
</form>
"#;

/// The number of the request, the caller, and the number of the request.
pub(crate) const WATCHING: &str = r#"<form method="post" action="/desk/requests/{}/watch">
<input type="hidden" name="me" value="{}">
<label for="role">Role</label>
<select id="role" name="role"><option>requestor</option><option>cc</option><option>admincc</option></select>
<label for="who">Person</label>
<input id="who" name="person" list="people" autocapitalize="none" spellcheck="false" autocomplete="off" required>
<button>Put in</button>
<button formaction="/desk/requests/{}/unwatch">Take out</button>
</form>
"#;

/// The number of the request, the caller, what a number is, and the number of the request.
pub(crate) const LINKING: &str = r#"<form method="post" action="/desk/requests/{}/link">
<input type="hidden" name="me" value="{}">
<label for="kind">Link</label>
<select id="kind" name="kind"><option>DependsOn</option><option>DependedOnBy</option><option>MemberOf</option><option>HasMember</option><option>RefersTo</option><option>ReferredToBy</option></select>
<label for="other">Request</label>
<input id="other" name="other" inputmode="numeric" pattern="{}" title="The number of a request" autocomplete="off" required>
<button>Link</button>
<button formaction="/desk/requests/{}/unlink">Unlink</button>
</form>
"#;
