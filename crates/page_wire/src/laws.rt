//! What holds of all pages: the contracts of functions that do nothing.
ghost use Rattle.page_wire.specs.Heads.{RepliesAreStated};
ghost use Rattle.page_wire.specs.Laws.{ChangesAreAsked, LooksLeave, OtherSitesLeave, PagesAlike};
ghost use Rattle.page_wire.specs.Laws.{TextsAlike, TokensChangeNothing};

/// Whatever GET and HEAD ask of the pages, the desk stays.
pub fn look_law()
    ensures { LooksLeave }
{}

/// A post that comes from another site leaves the desk, and its reply is the same whatever cookie and
/// whatever fields it has.
pub fn other_site_law()
    ensures { OtherSitesLeave }
{}

/// The desk changes only by a post that no other site sent, with the cookie of its caller, by a form that
/// says once that it stood on the caller's page; a reply says once, by a number, which entry that showed
/// last. So a form whose `me` or `seen` is missing, stands twice or isn't of its form changes nothing.
pub fn change_law()
    ensures { ChangesAreAsked }
{}

/// Nothing leaks by pages: on two desks that a caller sees alike each page is the same, byte for byte,
/// where neither was out of memory.
pub fn page_alike_law()
    ensures { PagesAlike }
{}

/// Nor by what is told of a text that isn't sent, as of a reply that somebody overtook: on such desks it
/// is the same.
pub fn text_alike_law()
    ensures { TextsAlike }
{}

/// No reply has a token: with other tokens in the settings, by which a message asks for the same, its
/// reply has the same bytes, and its step is the same.
pub fn token_law()
    ensures { TokensChangeNothing }
{}

/// The head of each reply, read back, has just the stated lines: where it leads, the path is one line and
/// begins with one slash and no second; and its cookie is one value, where each token of the settings is a
/// person's who has a name.
pub fn reply_law()
    ensures { RepliesAreStated }
{}
