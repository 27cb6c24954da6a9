//! What holds of all messages: the contracts of functions that do nothing.
ghost use Rattle.page_routes.specs.Laws.{ActsAreAsked, CookiesAreTexts, TextsComeAlong, WaysStayHere};

/// Wherever a browser is led, whatever it sent: the path has only bytes that may stand in an address,
/// so it is one line of a head, and it begins with one slash and no second, so it is of this site.
pub fn way_law()
    ensures { WaysStayHere }
{}

/// A command is asked only by a post that no other site sent, with the cookie of its caller, by a form that
/// says once that it stood on the caller's page; a reply says once, by a number, which entry that showed
/// last.
pub fn act_law()
    ensures { ActsAreAsked }
{}

/// A text that is typed into a form comes along: with the command, to the page on which one signs in, or
/// into the form that is filled in once more, whatever its other fields are.
pub fn text_law()
    ensures { TextsComeAlong }
{}

/// Whoever signs in is given a cookie of only small letters, digits, `-`, `_` and `.`, where each token of the
/// settings is a person's who has a name.
pub fn cookie_law()
    ensures { CookiesAreTexts }
{}
