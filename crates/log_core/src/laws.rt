//! What holds of every note.
ghost use Rattle.std.specs.Prelude.{◌≡◌, ℕ, List, true};
ghost use Rattle.std.specs.List.{list_all};
ghost use Rattle.log_core.specs.Log.{is_plain, note_text};

/// Whatever comes, a note is of visible characters and spaces: no message ends a line, or writes one.
pub fn plain_law()
    ensures { (forwarded person method target reply : List ℕ)
        → list_all is_plain (note_text forwarded person method target reply) ≡ true }
{}
