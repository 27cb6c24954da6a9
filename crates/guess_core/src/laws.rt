//! What holds of all wrong tokens that were noted.

ghost use Rattle.guess_core.specs.Laws as laws;

/// Only an address from which ten wrong tokens came in a minute is barred at that minute, whatever
/// came from others.
pub fn bar_law()
    ensures { laws.OnlyGuessersAreBarred }
{}

/// While there is place, a wrong token counts for its address: so the tenth one bars it.
pub fn count_law()
    ensures { laws.EachCounts }
{}
