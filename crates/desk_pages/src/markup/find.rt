//! The page of a search.

/// Whether it is sought in a queue, twice: the heading, and the queue.
pub(crate) const FIND_TOP: &str = r#"[<p class="crumb"><a href="/">Home</a></p>
]<h1>{}</h1>
[<p class="side"><a class="button" href="/desk/queues/{}/new">New request</a></p>
]"#;

/// What is wrong.
pub(crate) const FIND_FAULT: &str = r#"<h1>Find</h1>
<p class="alert">{}</p>
"#;
