//! The page on which one signs in.

/// Whether a token was refused, whether a form comes along that wasn't sent, and the place to which it
/// leads.
pub(crate) const SIGN_IN: &str = r#"<h1>Desk</h1>
[<p class="alert"><b>No such token.</b> Look whether a sign is missing, or ask whoever runs the desk. <code>refused 1 UnknownCaller</code></p>
][<p class="alert"><b>Nothing was sent yet</b>, since you are no longer signed in. Sign in, and what you typed is there again.</p>
]<form method="post" action="/sign-in">
<input type="hidden" name="next" value="{}">
"#;

/// What comes along: a subject, requestors, the number of the last entry that was seen, a text and a
/// status.
pub(crate) const KEPT: &str = r#"<input type="hidden" name="subject" value="{}">
<input type="hidden" name="requestors" value="{}">
<input type="hidden" name="seen" value="{}">
<input type="hidden" name="text" value="{}">
<input type="hidden" name="status" value="{}">
"#;

/// Whether it stands at another place than its own.
pub(crate) const SIGN_IN_END: &str = r#"<label for="token">Your token</label>
<input type="password" id="token" name="token" autocomplete="current-password" required autofocus>
<label class="line"><input type="checkbox" name="keep" value="yes"> Stay signed in on this device for 30 days</label>
<button>Sign in</button>
</form>
[<p>Signed in already, and came here by a link from elsewhere? <a href="">Open this page again</a>.</p>
]"#;
