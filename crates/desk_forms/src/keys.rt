//! The keys that what is posted to a path may have.

ghost use Rattle.std.specs.Prelude.{◌≡◌, map};
ghost use Rattle.desk_forms.specs.Keys as keys;
ghost use Rattle.desk_forms.specs.Kinds.{argument_of};
ghost use Rattle.desk_forms.specs.Paths.{bound_of};

use crate::kinds::{Arg, Kind};
use crate::paths::PathParameter;

/// Whether an argument of the kind is posted, where the path names this.
fn is_posted(bound: PathParameter<'_>, kind: Kind) -> bool
    ensures { result ≡ keys.is_posted (bound_of bound.entry) kind }
{
    match kind {
        Kind::Id => false,
        Kind::Flag(_) => false,
        Kind::Queue => match bound {
            PathParameter::Queue(_) => false,
            _ => true,
        },
        _ => true,
    }
}

/// Whether the key is that of an argument that is posted.
pub fn is_key(bound: PathParameter<'_>, args: &[Arg], key: &str) -> bool
    ensures { result ≡ keys.is_key (bound_of bound.entry) (map argument_of args.now) key.now }
{
    for arg in args {
        if is_posted(bound, arg.1) && key == arg.0 {
            return true;
        }
    }
    false
}
