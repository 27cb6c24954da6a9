//! Which lifecycle and which calendar of a settings text has a fault first.

ghost use Rattle.std.specs.Prelude.{◌≡◌, IfOk, is_some};
ghost use Rattle.std.specs.Option.{option_copied};
ghost use Rattle.toml.specs.View.{view, table_view};
ghost use Rattle.settings_parts.specs.Values.{members_of, table_at as members_at};
ghost use Rattle.settings_places.specs.Parts as spec;

use lifecycle_core::Lifecycle;
use settings_core::SettingsFault;
use settings_core::calendars::Opening;
use settings_core::stated::{Stated, value_of};
use settings_parts::values::table_at;
use std::alloc::{AllocError, Global};
use toml::{Table, Value};

/// The name of the first lifecycle that has a fault.
pub fn bad_lifecycle(alloc: Global, table: &Table) -> Result<Option<&str>, AllocError>
    ensures { IfOk result (λ name.
        option_copied name ≡ spec.bad_lifecycle (table_view table.now)) }
{
    bad_at::<Lifecycle>(alloc, table, "lifecycle")
}

/// The name of the first calendar that has a fault.
pub fn bad_calendar(alloc: Global, table: &Table) -> Result<Option<&str>, AllocError>
    ensures { IfOk result (λ name.
        option_copied name ≡ spec.bad_calendar (table_view table.now)) }
{
    bad_at::<Opening>(alloc, table, "calendar")
}

/// The name of the first of the tables under a key that has a fault.
fn bad_at<'t, T: Stated>(
    alloc: Global,
    table: &'t Table,
    key: &str,
) -> Result<Option<&'t str>, AllocError>
    ensures { IfOk result (λ name. option_copied name
        ≡ spec.bad_in T.Stated.fault_of (members_at key.now (table_view table.now))) }
{
    match table_at(table, key) {
        Some(tables) => bad_in::<T>(alloc, tables),
        None => Ok(None),
    }
}

fn bad_in<T: Stated>(alloc: Global, tables: &Table) -> Result<Option<&str>, AllocError>
    ensures { IfOk result (λ name. option_copied name
        ≡ spec.bad_in T.Stated.fault_of (table_view tables.now)) }
{
    for (name, value) in tables.iter() {
        if has_fault::<T>(alloc, value)? {
            return Ok(Some(name.as_str()));
        }
    }
    Ok(None)
}

fn has_fault<T: Stated>(alloc: Global, value: &Value) -> Result<bool, AllocError>
    ensures { IfOk result (λ has.
        has ≡ is_some (T.Stated.fault_of (members_of (view value.now)))) }
{
    match value_of::<T>(alloc, value) {
        Ok(_) => Ok(false),
        Err(SettingsFault::NoMemory) => Err(AllocError),
        Err(_) => Ok(true),
    }
}
