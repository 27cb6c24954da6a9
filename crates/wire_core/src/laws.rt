//! What holds of every message step.
ghost use Rattle.std.specs.Prelude.{◌≡◌, ℕ, List, Option};
ghost use Rattle.settings_core.specs.declared.settings.Settings.{Settings};
ghost use Rattle.desk_model.specs.Desk.{Desk};
ghost use Rattle.wire_core.specs.Steps.{IsUnavailable, StreamSteps};

/// A reply with the bytes of 503 left the desk as it was, whatever was sent.
pub fn unavailable_law()
    ensures { (settings : Settings) (at : ℕ) (had left : Option (List ℕ)) (old : Desk)
        (bytes : List ℕ) (new : Desk) → StreamSteps settings at had left old bytes new
        → IsUnavailable bytes → new ≡ old }
{}
