//! What holds of the table's paths.

ghost use Rattle.route_core.specs.Rows.{OneRowHasAPath};

/// No two rows have a method and a path in common: each row that has both is the one at which they
/// are found.
pub fn rows_law()
    ensures { OneRowHasAPath }
{}
