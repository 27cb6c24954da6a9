//! What holds of the places of faults.

ghost use Rattle.settings_places.specs.Placed.{PlaceLaw};

/// Each fault that a text has, has a place, and what stands there has the fault.
pub fn place_law()
    ensures { PlaceLaw }
{}
