//! What holds of all heads: the contracts of functions that do nothing.
ghost use Rattle.page_reply.specs.Laws.{HeadsReadAsStated, HeadsReadOnce};

/// Bytes read as one head at most: no other lines are in them.
pub fn reading_law()
    ensures { HeadsReadOnce }
{}

/// The head of a reply, read back, has just the stated lines, whatever its cookie and its place are, if
/// these are one line.
pub fn head_law()
    ensures { HeadsReadAsStated }
{}
