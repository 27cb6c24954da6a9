//! The levels of a settings text.

ghost use Rattle.std.specs.Prelude.{◌≡◌, IfOk};
ghost use Rattle.toml.specs.View.{view, table_view};
ghost use Rattle.settings_parts.specs.LevelParts.{level_of as level_in};
ghost use Rattle.settings_parts.specs.Values.{members_of};
ghost use Rattle.settings_core.specs.Levels as spec;

use crate::named::Named;
use hours_core::Level;
use settings_parts::level::level_of;
use settings_parts::values::{table_at, table_of};
use std::alloc::{AllocError, Global};
use text_core::Text;
use toml::{Table, Value};

/// The levels of a settings text by name.
pub fn levels_of(alloc: Global, table: &Table) -> Result<Vec<Named<Level>>, AllocError>
    ensures { IfOk result (λ v. v.items ≡ spec.levels_of (table_view table.now)) }
{
    match table_at(table, "level") {
        Some(levels) => levels_in(alloc, levels),
        None => Ok(Vec::new(alloc)),
    }
}

/// The levels of a table.
fn levels_in(alloc: Global, table: &Table) -> Result<Vec<Named<Level>>, AllocError>
    ensures { IfOk result (λ v. v.items ≡ spec.levels_in (table_view table.now)) }
{
    let mut found = Vec::new(alloc);
    for (name, value) in table.iter() {
        let value = read(alloc, value)?;
        let name = Text::new(alloc, name.as_str())?;
        found.push(Named { name, value })?;
    }
    Ok(found)
}

fn read(alloc: Global, value: &Value) -> Result<Level, AllocError>
    ensures { IfOk result (λ l. l ≡ level_in (members_of (view value.now))) }
{
    match table_of(value) {
        Some(table) => level_of(alloc, table),
        None => level_of(alloc, &Table::new(alloc)),
    }
}
