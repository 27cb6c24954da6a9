//! What a settings text states in tables under names, with a standard under the name `default`.

ghost use Rattle.std.specs.Prelude.{◌≡◌, ◌≢◌, Option, None, Some, IfOk, IfErr};
ghost use Rattle.toml.specs.Data.{Members};
ghost use Rattle.toml.specs.View.{view, table_view};
ghost use Rattle.settings_parts.specs.Values.{members_of, table_at as members_at};
ghost use Rattle.settings_core.specs.Stated as spec;
ghost use Rattle.settings_core.specs.declared.fault.SettingsFault.{SettingsFault};
ghost use Rattle.settings_core.specs.declared.fault.SettingsFault.TheVariants.{NoMemory};

use crate::fault::SettingsFault;
use crate::named::{Named, STANDARD};
use settings_parts::values::{has_key, table_at, table_of};
use std::alloc::{AllocError, Global};
use text_core::Text;
use toml::{Table, Value};

/// A value that is built of a table's parts, as a lifecycle or a calendar.
pub trait Stated: Sized + Drop {
    /// The parts.
    ghost Parts: { Type 0 };

    /// The parts that a table states.
    ghost parts_of: { Members → Parts };

    /// The fault of a table's parts.
    ghost fault_of: { Members → Option SettingsFault };

    /// The value has these parts.
    ghost has: { Self → Parts → Type 0 };

    /// The parts that settings have without a text.
    ghost standard_parts: { Parts };

    /// The value of a table's parts, or their least fault.
    fn read(alloc: Global, table: &Table) -> Result<Self, SettingsFault>
        ensures ok { IfOk result (λ v. (fault_of (table_view table.now) ≡ None)
            × has v (parts_of (table_view table.now))) }
        ensures err { IfErr result (λ e. e ≢ NoMemory → fault_of (table_view table.now) ≡ Some e) };

    /// The value that settings have without a text. The only fault is `NoMemory`.
    fn standard(alloc: Global) -> Result<Self, SettingsFault>
        ensures ok { IfOk result (λ v. has v standard_parts) }
        ensures err { IfErr result (λ e. e ≡ NoMemory) };
}

/// The values of the tables under a key by name, and the standard one where none has the name
/// `default`. The fault is that of the first, by byte order of names, that has one.
pub fn stated_at<T: Stated>(
    alloc: Global,
    table: &Table,
    key: &str,
) -> Result<Vec<Named<T>>, SettingsFault>
    ensures ok { IfOk result (λ v.
        (spec.fault_in T.Stated.fault_of (members_at key.now (table_view table.now)) ≡ None)
        × spec.Have T.Stated.has v.items (spec.with_standard T.Stated.parts_of
        T.Stated.standard_parts (members_at key.now (table_view table.now)))) }
    ensures err { IfErr result (λ e. e ≢ NoMemory →
        spec.fault_in T.Stated.fault_of (members_at key.now (table_view table.now)) ≡ Some e) }
{
    match table_at(table, key) {
        Some(tables) => with_standard(alloc, tables),
        None => with_standard(alloc, &Table::new(alloc)),
    }
}

/// The values of tables by name, and the standard one where none has the name `default`.
fn with_standard<T: Stated>(alloc: Global, tables: &Table) -> Result<Vec<Named<T>>, SettingsFault>
    ensures ok { IfOk result (λ v.
        (spec.fault_in T.Stated.fault_of (table_view tables.now) ≡ None)
        × spec.Have T.Stated.has v.items (spec.with_standard T.Stated.parts_of
        T.Stated.standard_parts (table_view tables.now))) }
    ensures err { IfErr result (λ e. e ≢ NoMemory
        → spec.fault_in T.Stated.fault_of (table_view tables.now) ≡ Some e) }
{
    let mut values = values_in(alloc, tables)?;
    if !has_key(tables, STANDARD) {
        let name = Text::new(alloc, STANDARD)?;
        let value = T::standard(alloc)?;
        values
            .push(Named { name, value })
            .map_err(AllocError::from)?;
    }
    Ok(values)
}

/// The values of tables by name.
fn values_in<T: Stated>(alloc: Global, tables: &Table) -> Result<Vec<Named<T>>, SettingsFault>
    ensures ok { IfOk result (λ v.
        (spec.fault_in T.Stated.fault_of (table_view tables.now) ≡ None)
        × spec.Have T.Stated.has v.items
        (spec.parts_in T.Stated.parts_of (table_view tables.now))) }
    ensures err { IfErr result (λ e. e ≢ NoMemory
        → spec.fault_in T.Stated.fault_of (table_view tables.now) ≡ Some e) }
{
    let mut found = Vec::new(alloc);
    for (name, value) in tables.iter() {
        let value = value_of::<T>(alloc, value)?;
        let name = Text::new(alloc, name.as_str())?;
        found.push(Named { name, value }).map_err(AllocError::from)?;
    }
    Ok(found)
}

/// The value of a table, of an empty one where it is none.
pub fn value_of<T: Stated>(alloc: Global, value: &Value) -> Result<T, SettingsFault>
    ensures ok { IfOk result (λ v. (T.Stated.fault_of (members_of (view value.now)) ≡ None)
        × T.Stated.has v (T.Stated.parts_of (members_of (view value.now)))) }
    ensures err { IfErr result (λ e. e ≢ NoMemory
        → T.Stated.fault_of (members_of (view value.now)) ≡ Some e) }
{
    match table_of(value) {
        Some(table) => T::read(alloc, table),
        None => T::read(alloc, &Table::new(alloc)),
    }
}
