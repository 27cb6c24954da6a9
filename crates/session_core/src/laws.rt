//! What holds of sessions.

ghost use Rattle.session_core.specs.Laws as laws;

/// A cookie is somebody's just where it is `PERSON.EXPIRES.MAC` by a token of this person in the
/// settings, `now < EXPIRES` and `EXPIRES <= now + 43200`.
pub fn caller_law()
    ensures { laws.CallersAreThose }
{}

/// The cookie of one who signed in is read as the person of the token that was typed until its
/// session ends, and as nobody else at any time: also by settings that changed since, as long as
/// they have the token.
pub fn read_back_law()
    ensures { laws.SessionsAreReadBack }
{}

/// Under settings without its token a cookie is nobody's, but where another token of the same
/// person makes the same MAC.
pub fn token_law()
    ensures { laws.CookiesNeedTheirToken }
{}

/// Where each token of the settings is a person's who has a name, what one who signs in is given has
/// only small letters, digits, `-`, `_` and `.`: none of them ends the text of a cookie, or a line.
pub fn text_law()
    ensures { laws.CookiesAreTexts }
{}
