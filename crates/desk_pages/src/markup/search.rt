//! The form for a search.

/// Whether it is unfolded. The words, and whether they may stand in texts; the queue; which state,
/// and one status; the owner and the requestor; for whom it waits; whether only what is late, and the
/// first and the last day; which order.
pub(crate) const SEARCH: &str = r#"<details[ open]>
<summary>Search</summary>
<form class="sheet fields" action="/desk/find">
<p><label for="words">Words</label><input id="words" name="words" type="search" autocomplete="off" dir="auto" aria-describedby="how" value="{}"></p>
<p class="tick"><input id="replies" name="replies" type="checkbox" value="yes"[ checked]><label for="replies">or in a text of its history</label></p>
<p><label for="queue">Queue</label><input id="queue" name="queue" autocapitalize="none" spellcheck="false" autocomplete="off" value="{}"></p>
<p><label for="state">State</label><select id="state" name="state">
<option value=""[ selected]>any</option>
<option value="open"[ selected]>open</option>
<option value="closed"[ selected]>closed</option>
</select></p>
<p><label for="status">or one status</label><input id="status" name="status" autocapitalize="none" spellcheck="false" autocomplete="off" value="{}"></p>
<p><label for="owner">Owner</label><input id="owner" name="owner" autocapitalize="none" spellcheck="false" autocomplete="off" value="{}"></p>
<p><label for="requestor">Who asked</label><input id="requestor" name="requestor" autocapitalize="none" spellcheck="false" autocomplete="off" value="{}"></p>
<p><label for="turn">Waits for</label><select id="turn" name="turn">
<option value=""[ selected]>anybody</option>
<option value="desk"[ selected]>the desk</option>
<option value="requestor"[ selected]>who asked</option>
</select></p>
<p class="tick"><input id="late" name="late" type="checkbox" value="yes"[ checked]><label for="late">only what is late</label></p>
<p><label for="from">Filed from</label><input id="from" name="from" type="date" value="{}"></p>
<p><label for="to">Filed to</label><input id="to" name="to" type="date" value="{}"></p>
<p><label for="order">Order</label><select id="order" name="order">
<option value="newest"[ selected]>newest first</option>
<option value="oldest"[ selected]>oldest first</option>
<option value="due"[ selected]>due first</option>
<option value="due-last"[ selected]>due last</option>
<option value="active"[ selected]>last entry first</option>
<option value="quiet"[ selected]>last entry last</option>
</select></p>
<p class="how" id="how">Each of the words stands in the subject, in large or small letters. An owner is a name, Me or Nobody; who asked is a name or Me.</p>
<button>Search</button>
</form>
</details>
"#;
