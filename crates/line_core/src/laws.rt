//! What holds of the lines of every stream.

ghost use Rattle.std.specs.Prelude.{◌≡◌, ℕ, List, Some};
ghost use Rattle.std.specs.Str.Lines.{lines};
ghost use Rattle.line_core.specs.Lines.{TakesAll};

/// The lines that are taken one after the other of a stream of known bytes are those that `lines`
/// gives of a text of these bytes.
pub fn lines_law()
    ensures { (bytes : List ℕ) (texts : List (List ℕ)) → TakesAll (Some bytes) texts
        → texts ≡ lines bytes }
{}
