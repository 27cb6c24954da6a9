//! The names that lifecycles bring: their statuses, and the rights that their moves ask for.

ghost use Rattle.std.specs.Prelude.{◌≡◌, ◌||◌, ℕ, List, IfOk, OnOk};
ghost use Rattle.std.specs.HashSet.{contains_text};
ghost use Rattle.std.specs.List.{list_any};
ghost use Rattle.std.specs.Str.{bytes_eq};
ghost use Rattle.lifecycle_core.specs.Lifecycle.{is_status, names_right};
ghost use Rattle.settings_core.specs.Names as spec;
ghost use Rattle.text_core.specs.Texts.{is_among};

use crate::named::Named;
use lifecycle_core::{Lifecycle, MoveRight, Parts};
use std::alloc::{AllocError, Global};
use std::collections::HashSet;
use text_core::Text;

/// Names of which one is found without a walk over all.
pub type Names = HashSet<String>;

/// The rights that entries of lifecycles give to moves.
pub fn rights_of(alloc: Global, lifecycles: &[Named<Lifecycle>]) -> Result<Names, AllocError>
    ensures { IfOk result (λ names. (right : List ℕ)
        → contains_text names right
        ≡ list_any (λ l. names_right l.value right) lifecycles.now) }
{
    let mut names = HashSet::new(alloc);
    for lifecycle in lifecycles {
        let parts = lifecycle.value.parts();
        add_rights(alloc, &mut names, parts.rights.as_slice())?;
    }
    Ok(names)
}

/// The statuses of lifecycles.
pub fn statuses_of(alloc: Global, lifecycles: &[Named<Lifecycle>]) -> Result<Names, AllocError>
    ensures { IfOk result (λ names. (status : List ℕ)
        → contains_text names status ≡ spec.knows_status lifecycles.now status) }
{
    let mut names = HashSet::new(alloc);
    for lifecycle in lifecycles {
        add_statuses(alloc, &mut names, lifecycle.value.parts())?;
    }
    Ok(names)
}

fn add_rights(alloc: Global, names: &mut Names, rights: &[MoveRight]) -> Result<(), AllocError>
    ensures { OnOk result ((q : List ℕ) → contains_text names.new q
        ≡ (contains_text names.old q || list_any (λ e. bytes_eq e.right q) rights.now)) }
{
    for entry in rights {
        names.insert(String::from_str(alloc, entry.right.as_str())?)?;
    }
    Ok(())
}

fn add_statuses(alloc: Global, names: &mut Names, parts: &Parts) -> Result<(), AllocError>
    ensures { OnOk result ((q : List ℕ) → contains_text names.new q
        ≡ (contains_text names.old q || is_status parts.now q)) }
{
    add_texts(alloc, names, parts.initial.as_slice())?;
    add_texts(alloc, names, parts.active.as_slice())?;
    add_texts(alloc, names, parts.inactive.as_slice())
}

fn add_texts(alloc: Global, names: &mut Names, texts: &[Text]) -> Result<(), AllocError>
    ensures { OnOk result ((q : List ℕ) → contains_text names.new q
        ≡ (contains_text names.old q || is_among texts.now q)) }
{
    for text in texts {
        names.insert(String::from_str(alloc, text.as_str())?)?;
    }
    Ok(())
}
