//! What holds of the first name that settings don't know.

ghost use Rattle.check_core.specs.Rows.{FirstUnknownLaw};

/// Settings lack a name of a desk exactly where there is a first one that they don't know.
pub fn first_unknown_law()
    ensures { FirstUnknownLaw }
{}
