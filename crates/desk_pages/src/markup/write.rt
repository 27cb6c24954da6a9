//! The forms for a reply and for a comment. A browser drops the line feed after `<textarea ..>`, so
//! one always stands there, and a text that begins with one keeps it.

/// The number of the request, the caller, the number of the last entry that the caller has seen, and
/// the text.
pub(crate) const REPLY: &str = r#"<form method="post" action="/desk/requests/{}/reply">
<input type="hidden" name="me" value="{}">
<input type="hidden" name="seen" value="{}">
<label for="text">Reply, to all who may see the request</label>
<textarea id="text" name="text" rows="5" dir="auto" required>
{}</textarea>
"#;

/// Whether it is ticked, and the status, twice.
pub(crate) const MOVE_TOO: &str =
    r#"<label class="line"><input type="checkbox" name="status"[ checked] value="{}"> and make it {}</label>
"#;

pub(crate) const REPLY_END: &str = r#"<button>Reply</button>
</form>"#;

/// The number of the request, the caller, and the text.
pub(crate) const COMMENT: &str = r#"<form method="post" action="/desk/requests/{}/comment">
<input type="hidden" name="me" value="{}">
<label for="comment">Comment, for those who may see comments</label>
<textarea id="comment" name="text" rows="5" dir="auto" required>
{}</textarea>
<button>Comment</button>
</form>"#;
