//! The page of who has how much to do.

/// The content up to the first row.
pub(crate) const LOAD_TOP: &str = r#"<h1>Workload</h1>
<table class="load">
<caption>The requests that you may see and that aren’t closed, by owner</caption>
<thead><tr><th scope="col">Owner</th><th scope="col">Open</th><th scope="col">Late</th><td></td></tr></thead>
<tbody>
"#;

/// A row: whose it is; its owner twice, the owner and how much is open, whether anything is late, the
/// owner and how much.
pub(crate) const LOAD_ROW: &str =
    r#"<tr class="[mine][nobody]"><th scope="row" class="owner"><a href="/desk/find?owner={}&amp;state=open&amp;order=due">{}</a></th><td><a href="/desk/find?owner={}&amp;state=open&amp;order=due">{}</a></td><td[ class="late"]><a href="/desk/find?owner={}&amp;late=yes&amp;order=due">{}</a></td>"#;

/// Both as bars, each after the whole of it, and twice.
pub(crate) const LOAD_BARS: &str =
    r#"<td aria-hidden="true"><meter max="{}" value="{}">{}</meter><meter max="{}" value="{}">{}</meter></td></tr>
"#;

/// The last row: how much is open, whether anything is late, and how much.
pub(crate) const LOAD_TOTAL: &str = r#"</tbody>
<tfoot><tr><th scope="row">Total</th><td><a href="/desk/find?state=open&amp;order=due">{}</a></td><td[ class="late"]><a href="/desk/overdue">{}</a></td><td></td></tr></tfoot>
</table>
"#;
