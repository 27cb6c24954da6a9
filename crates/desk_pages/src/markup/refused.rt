//! What is said of a refusal.

/// The number of the request, twice.
pub(crate) const CRUMB: &str = r#"<p class="crumb"><a href="/desk/requests/{}">Request {}</a></p>
"#;

/// The heading; what is said before the right, the right, and what is said after it; the number
/// and the name of the refusal, whether a right is lacking, and the right.
pub(crate) const NOTICE: &str = r#"<h1>{}</h1>
<p class="alert">{}{}{} <code>refused {} {}[ ]{}</code></p>
"#;

/// The heading; what is said before the caller, the caller, what is said between, another person, and
/// what is said after that.
pub(crate) const NOTE: &str = r#"<h1>{}</h1>
<p class="alert">{}{}{}{}{}</p>
"#;

/// Who was quicker, and what that person did.
pub(crate) const OVERTAKEN: &str = r#"<h1>{} {} while you were writing</h1>
<p class="alert">Your reply wasn’t sent yet. Read what came meanwhile, and send it all the same, or change it.</p>
"#;

pub(crate) const TYPED_TOP: &str = r#"<div class="write">
"#;

pub(crate) const TYPED_END: &str = r#"
</div>
"#;

/// The number of the request, twice.
pub(crate) const TO_REQUEST: &str =
    r#"<p><a class="button" href="/desk/requests/{}">Back to request {}</a></p>
"#;

/// Whether the queue is there, or is not; its name, twice.
pub(crate) const TO_QUEUE: &str = r#"[<p><a class="button" href="/desk/queues/{}">Back to {}</a></p>
][<p><a class="button" href="/">To the queues</a></p>
]"#;

pub(crate) const TO_QUEUES: &str = r#"<p><a class="button" href="/">To the queues</a></p>
"#;

/// The status.
pub(crate) const REPLIED_NOTE: &str =
    r#"<p>Your reply was sent, but the request was not made {}.</p>
"#;
