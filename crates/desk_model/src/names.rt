//! Lists of names.

ghost use Rattle.std.specs.Prelude.{◌≡◌, IfOk};
ghost use Rattle.desk_model.specs.Names.{in_order};

use std::alloc::{AllocError, Global};
use std::collections::BTreeSet;
use text_core::{Text, Texts};

/// The names in the order of their bytes, each once. `AllocError` where memory is refused.
pub fn in_byte_order(alloc: Global, names: &[Text]) -> Result<Texts, AllocError>
    ensures { IfOk result (λ sorted. sorted ≡ in_order names.now) }
{
    let mut once = BTreeSet::new(alloc);
    for name in names {
        once.insert(name.clone()?)?;
    }
    let sorted: Vec<Text> = once.into_iter().collect(alloc)?;
    Ok(Texts::from(sorted))
}
