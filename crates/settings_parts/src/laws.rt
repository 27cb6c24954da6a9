//! What holds of each text without a fault of form.

ghost use Rattle.std.specs.Prelude.{◌≡◌, true, None};
ghost use Rattle.toml.specs.Data.{Data, Members};
ghost use Rattle.settings_form.specs.Kinds.{has_kind};
ghost use Rattle.settings_form.specs.Walk.{form_fault};
ghost use Rattle.settings_form.specs.declared.form.Kind.{Kind};
ghost use Rattle.settings_parts.specs.Whole.{IsRight, restored};

/// Reading loses nothing: a text without a fault of form is right through and through, each key
/// known and each value of its kind, and a value of its kind is what its parts' words read of it.
pub fn whole_law()
    ensures right { (ms : Members) → form_fault ms ≡ None → IsRight ms }
    ensures whole { (kind : Kind) (d : Data) → has_kind kind d ≡ true → restored kind d ≡ d }
{}
