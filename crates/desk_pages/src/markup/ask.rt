//! The form for a new request.

/// The queue, the caller, the subject, the first text, the requestors and the caller; whether there
/// are statuses to choose from.
pub(crate) const ASK: &str = r#"<form class="sheet" method="post" action="/desk/queues/{}/new">
<input type="hidden" name="me" value="{}">
<label for="subject">What is it about?</label>
<input id="subject" name="subject" value="{}" dir="auto" required>
<p>One line of at most 200 characters.</p>
<label for="text">What is to be said?</label>
<textarea id="text" name="text" rows="5" dir="auto">
{}</textarea>
<p>You can leave it empty, and write on the next page.</p>
<label for="requestors">Who asks?</label>
<input id="requestors" name="requestors" value="{}" placeholder="{}" autocapitalize="none" spellcheck="false" autocomplete="off">
<p>Names with spaces between them. Leave it empty if you ask for yourself.</p>
[<label for="status">Status</label>
<select id="status" name="status">
]"#;

/// The status that was chosen before.
pub(crate) const CHOSEN: &str = r#"<option selected>{}</option>
<option value="">the usual one</option>
"#;

/// Whether there were statuses to choose from.
pub(crate) const ASK_END: &str = r#"[</select>
]<button>File it</button>
</form>
"#;
