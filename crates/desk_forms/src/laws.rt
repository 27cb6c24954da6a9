//! What holds of the table: a command is made of nothing but what was given for it.

ghost use Rattle.std.specs.Prelude.{◌≡◌, ℕ, List, Option, false};
ghost use Rattle.desk_forms.specs.Laws.{BlankIsNeverSeen, TextsAreGiven};

/// Whatever the values were before, what was given makes the same command: a blank is no value.
pub fn given_law()
    ensures { BlankIsNeverSeen }
{}

/// Where no argument of a form is many, texts make no difference to its command.
pub fn many_law()
    ensures { TextsAreGiven }
{}
