//! What stands above and below the content of each page.

/// The title, what a number is, and the caller; which of the places it is.
pub(crate) const TOP: &str = r##"<!DOCTYPE html>
<html lang="en">
<head>
<meta charset="utf-8">
<meta name="viewport" content="width=device-width, initial-scale=1">
<meta name="color-scheme" content="light dark">
<title>{} – Desk</title>
<link rel="stylesheet" href="/style.css?41eb9e22">
</head>
<body>
<a class="skip" href="#main">Skip to the content</a>
<header>
<b>Desk</b>
<nav>
<a href="/"[ aria-current="page"]>Home</a>
<a href="/desk/find"[ aria-current="page"]>Find</a>
<a href="/desk/overdue"[ aria-current="page"]>Late</a>
<a href="/desk/workload"[ aria-current="page"]>Workload</a>
</nav>
<form role="search" action="/desk/go"><input type="search" name="q" aria-label="Words, or the number of a request" placeholder="Words, or a number" autocomplete="off" enterkeyhint="search"> <button>Go</button></form>
<form method="post" action="/sign-out"><b>{}</b> <button>Sign out</button></form>
</header>
<main id="main">
"##;

/// The day and the time of its moment, twice.
pub(crate) const BOTTOM: &str = r#"</main>
<footer>Moments are in UTC. This page was made at <time datetime="{}T{}Z">{} {}</time>.</footer>
</body>
</html>
"#;

/// The title, where the caller isn't known.
pub(crate) const BARE_TOP: &str = r#"<!DOCTYPE html>
<html lang="en">
<head>
<meta charset="utf-8">
<meta name="viewport" content="width=device-width, initial-scale=1">
<meta name="color-scheme" content="light dark">
<title>{} – Desk</title>
<link rel="stylesheet" href="/style.css?41eb9e22">
</head>
<body class="bare">
<main>
"#;

pub(crate) const BARE_BOTTOM: &str = r#"</main>
</body>
</html>
"#;
