//! The key by which a table has a fault of form.

ghost use Rattle.std.specs.Prelude.{◌≡◌, map};
ghost use Rattle.std.specs.Option.{option_copied};
ghost use Rattle.toml.specs.View.{table_view};
ghost use Rattle.settings_form.specs.Form as form;
ghost use Rattle.settings_form.specs.Keys as spec;

use crate::fault::FormFault;
use crate::form::{Keys, Place, Row, keys_at, kind_of};
use crate::kinds::{has_clash, is_right_at, lacks, lacks_all};
use toml::Table;

/// The first key by which a table of the place has the fault, if it has it: one that its form
/// doesn't have; one that it lacks, in the order of its form; or one whose value is of another kind
/// or that is of another form, or else `rule`, which stands beside an offset or changes.
pub fn key_of<'t>(fault: FormFault, place: Place, table: &'t Table) -> Option<&'t str>
    ensures { option_copied result ≡ spec.key_of fault place (table_view table.now) }
{
    match fault {
        FormFault::UnknownKey => unknown_key(place, table),
        FormFault::Missing => lacking_key(place, table),
        FormFault::WrongKind => wrong_key(place, table),
    }
}

fn unknown_key<'t>(place: Place, table: &'t Table) -> Option<&'t str>
    ensures { option_copied result ≡ spec.unknown_key place (table_view table.now) }
{
    for (key, _value) in table.iter() {
        if kind_of(place, key.as_str()).is_none() {
            return Some(key.as_str());
        }
    }
    None
}

fn lacking_key(place: Place, table: &Table) -> Option<&'static str>
    ensures { option_copied result ≡ spec.lacking_key place (table_view table.now) }
{
    match keys_at(place) {
        Keys::Listed(rows) => first_lacking(rows, table),
        Keys::OneOf(rows) => first_if_all_lack(rows, table),
        Keys::Free(_, _) => None,
    }
}

/// The first key that a table must have and lacks.
fn first_lacking(rows: &'static [Row], table: &Table) -> Option<&'static str>
    ensures { option_copied result
        ≡ spec.first_lacking (map form.field_of rows.now) (table_view table.now) }
{
    for row in rows {
        if row.is_required && lacks(table, row.key) {
            return Some(row.key);
        }
    }
    None
}

/// The first of the keys, where a table lacks each.
fn first_if_all_lack(rows: &'static [Row], table: &Table) -> Option<&'static str>
    ensures { option_copied result
        ≡ spec.first_if_all_lack (map form.field_of rows.now) (table_view table.now) }
{
    if lacks_all(rows, table) {
        first_key(rows)
    } else {
        None
    }
}

fn first_key(rows: &'static [Row]) -> Option<&'static str>
    ensures { option_copied result ≡ spec.first_key (map form.field_of rows.now) }
{
    match rows {
        [] => None,
        [row, ..] => Some(row.key),
    }
}

fn wrong_key<'t>(place: Place, table: &'t Table) -> Option<&'t str>
    ensures { option_copied result ≡ spec.wrong_key place (table_view table.now) }
{
    match misfit(place, table) {
        Some(key) => Some(key),
        None => {
            if has_clash(place, table) {
                Some("rule")
            } else {
                None
            }
        }
    }
}

/// The first key whose value is of another kind, or that is of another form.
fn misfit<'t>(place: Place, table: &'t Table) -> Option<&'t str>
    ensures { option_copied result ≡ spec.misfit place (table_view table.now) }
{
    for (key, value) in table.iter() {
        if !is_right_at(place, key.as_str(), value) {
            return Some(key.as_str());
        }
    }
    None
}
