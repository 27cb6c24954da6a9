//! The persons of a request, and the requests that it is linked with.

/// Whether there is any; the heading.
pub(crate) const LIST_TOP: &str = r#"[<div><dt>{}</dt><dd>]"#;

/// The name. Whether it has a cross: the name; and what that opens: the number of the request, the
/// caller, the role, the name twice, and the role.
pub(crate) const PERSON_ROW: &str =
    r#"<span>{}</span> [<details><summary><span aria-hidden="true">×</span><span class="off">Take out {}</span></summary><form method="post" action="/desk/requests/{}/unwatch"><input type="hidden" name="me" value="{}"><input type="hidden" name="role" value="{}"><input type="hidden" name="person" value="{}"><button>Take {} out of {}</button></form></details> ]"#;

/// The number of the other request, twice, its subject and its status. Whether it has a cross: that
/// number; and what that opens: the number of the request, the caller, the kind of the link, the
/// number of the other one, and both again.
pub(crate) const LINK_ROW: &str =
    r#"<a href="/desk/requests/{}">#{} <bdi>{}</bdi></a> <small>{}</small> [<details><summary><span aria-hidden="true">×</span><span class="off">Unlink {}</span></summary><form method="post" action="/desk/requests/{}/unlink"><input type="hidden" name="me" value="{}"><input type="hidden" name="kind" value="{}"><input type="hidden" name="other" value="{}"><button>Unlink it: {} {}</button></form></details> ]"#;

/// Whether there was any.
pub(crate) const LIST_END: &str = r#"[</dd></div>
]"#;
