//! The first page.

pub(crate) const HOME_TOP: &str = r#"<h1>Home</h1>
"#;

/// The title of a list, and how many there are.
pub(crate) const SECTION: &str = r#"<h2>{} <small>{} open</small></h2>
"#;

/// The fields of the search for all of them.
pub(crate) const REST: &str = r#"<p><a href="/desk/find?{}">All of them</a></p>
"#;

pub(crate) const QUEUES_TOP: &str = r#"<table class="queues">
<caption>The queues that you may see</caption>
<thead><tr><th scope="col">Queue</th><th scope="col">Open</th><th scope="col">Late</th><th scope="col">Level</th><th scope="col"><span class="off">New request</span></th></tr></thead>
<tbody>
"#;

/// The name of the queue three times, how much is open, whether anything is late, its name and how
/// much, its level, and its name twice.
pub(crate) const QUEUE_ROW: &str =
    r#"<tr><th scope="row"><a href="/desk/queues/{}">{}</a></th><td><a href="/desk/queues/{}">{}</a></td><td[ class="late"]><a href="/desk/find?queue={}&amp;late=yes&amp;order=due">{}</a></td><td>{}</td><td><a href="/desk/queues/{}/new">New request<span class="off"> in {}</span></a></td></tr>
"#;

pub(crate) const QUEUES_END: &str = r#"</tbody>
</table>
"#;

/// The form for another queue, up to the lifecycles: the caller.
pub(crate) const OPENING_TOP: &str = r#"<details>
<summary>Open a queue</summary>
<form class="sheet" method="post" action="/desk/queues">
<input type="hidden" name="me" value="{}">
<label for="queue">Name</label>
<input id="queue" name="queue" autocapitalize="none" spellcheck="false" autocomplete="off" required>
<p>1 to 20 of a to z, 0 to 9, - and _, the first a letter.</p>
<label for="lifecycle">Lifecycle</label>
<select id="lifecycle" name="lifecycle">
"#;

/// From there to the levels.
pub(crate) const OPENING_LEVELS: &str = r#"</select>
<label for="level">Level</label>
<select id="level" name="level">
<option value="">none</option>
"#;

pub(crate) const OPENING_END: &str = r#"</select>
<button>Open the queue</button>
</form>
</details>
"#;
