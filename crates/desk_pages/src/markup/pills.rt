//! The choices that narrow a list: each is the search with some fields changed.

/// Which state is the present one: open, late, closed, all; and which owner: anyone, the caller,
/// nobody. The other fields of the search beside a state, beside what is late, beside a state twice,
/// and beside an owner three times.
pub(crate) const PILLS: &str = r#"<nav class="pills" aria-label="Narrow the list">
<ul aria-label="State">
<li><a href="/desk/find?state=open{}"[ aria-current="true"]>open</a></li>
<li><a href="/desk/find?late=yes{}"[ aria-current="true"]>late</a></li>
<li><a href="/desk/find?state=closed{}"[ aria-current="true"]>closed</a></li>
<li><a href="/desk/find?state={}"[ aria-current="true"]>all</a></li>
</ul>
<ul aria-label="Owner">
<li><a href="/desk/find?owner={}"[ aria-current="true"]>anyone’s</a></li>
<li><a href="/desk/find?owner=Me{}"[ aria-current="true"]>mine</a></li>
<li><a href="/desk/find?owner=Nobody{}"[ aria-current="true"]>nobody’s</a></li>
</ul>
</nav>
"#;
