//! The faults of form of a whole settings text, and the first key by which it has one.

ghost use Rattle.std.specs.Prelude.{◌≡◌, None, is_some, option_map};
ghost use Rattle.toml.specs.View.{view, array_view, table_view};
ghost use Rattle.settings_form.specs.Walk as walk;
ghost use Rattle.settings_form.specs.Places as places;

use crate::fault::FormFault;
use crate::form::{Item, Kind, Place, kind_of};
use crate::keys::key_of;
use toml::value::Array;
use toml::{Table, Value};

/// How a table is reached.
#[derive(Clone, Copy)]
pub struct TablePath<'t> {
    /// The key at which the table around it stands; empty where that is the whole.
    pub around: &'t str,
    /// The key at which it stands, or the list in which it does; empty where it is the whole.
    pub key: &'t str,
    /// Which of a list it is, from 1; 0 where it stands in none.
    pub number: usize,
}

/// A key of a settings text: the table that has or lacks it, and the form of that table.
#[derive(Clone, Copy)]
pub struct KeyAt<'t> {
    pub place: Place,
    pub path: TablePath<'t>,
    pub key: &'t str,
}

/// The first key by which the text has the fault, if it has it: of a table before those inside it,
/// and of these by the order of their keys and rows.
#[tactic(auto, using(crate::proofs::Places::found_where))]
pub fn fault_key(fault: FormFault, table: &Table) -> Option<KeyAt<'_>>
    ensures key { option_map places.seen_key result ≡ places.fault_key fault (table_view table.now) }
    ensures found { is_some result ≡ walk.has_fault fault (table_view table.now) }
{
    key_from_top(fault, table)
}

fn key_from_top(fault: FormFault, table: &Table) -> Option<KeyAt<'_>>
    ensures { option_map places.seen_key result ≡ places.fault_key fault (table_view table.now) }
{
    let path = TablePath {
        around: "",
        key: "",
        number: 0,
    };
    match key_of(fault, Place::Top, table) {
        Some(key) => Some(KeyAt {
            place: Place::Top,
            path,
            key,
        }),
        None => key_inside(fault, Place::Top, "", table),
    }
}

/// The first key by which a table inside this one has the fault.
#[cycle(walk)]
fn key_inside<'t>(
    fault: FormFault,
    place: Place,
    around: &'t str,
    table: &'t Table,
) -> Option<KeyAt<'t>>
    ensures { option_map places.seen_key result
        ≡ places.key_inside fault place around.now (table_view table.now) }
{
    'members: for (key, value) in table.iter() {
        let path = TablePath {
            around,
            key: key.as_str(),
            number: 0,
        };
        let found = key_at(fault, kind_of(place, key.as_str()), path, value);
        if found.is_some() {
            return found;
        }
    }
    None
}

/// The first key by which a value has the fault: a table, or a list of tables.
#[cycle(walk)]
fn key_at<'t>(
    fault: FormFault,
    kind: Option<Kind>,
    path: TablePath<'t>,
    value: &'t Value,
) -> Option<KeyAt<'t>>
    ensures { option_map places.seen_key result
        ≡ places.key_at fault kind (places.seen_path path.entry) (view value.now) }
{
    match value {
        Value::Table(table) => match kind {
            Some(Kind::One(Item::Table(place))) => match key_of(fault, place, table) {
                Some(key) => Some(KeyAt { place, path, key }),
                None => key_inside(fault, place, path.key, table),
            },
            _ => None,
        },
        Value::Array(list) => match kind {
            Some(Kind::Many(Item::Table(place))) => key_in_items(fault, place, path, list),
            _ => None,
        },
        _ => None,
    }
}

/// The first key by which a table of the list has the fault.
#[cycle(walk)]
fn key_in_items<'t>(
    fault: FormFault,
    place: Place,
    path: TablePath<'t>,
    list: &'t Array,
) -> Option<KeyAt<'t>>
    ensures { option_map places.seen_key result
        ≡ places.key_in_items fault place (places.seen_path path.entry) 1 (array_view list.now) }
{
    let mut number = 0;
    'items: for value in list {
        number += 1;
        let path = TablePath { number, ..path };
        let found = key_at(fault, Some(Kind::One(Item::Table(place))), path, value);
        if found.is_some() {
            return found;
        }
    }
    None
}

fn has_fault(fault: FormFault, table: &Table) -> bool
    ensures { result ≡ walk.has_fault fault (table_view table.now) }
{
    fault_key(fault, table).is_some()
}

/// The least fault of form of a settings text.
pub fn form_fault(table: &Table) -> Option<FormFault>
    ensures { result ≡ walk.form_fault (table_view table.now) }
{
    if has_fault(FormFault::UnknownKey, table) {
        return Some(FormFault::UnknownKey);
    }
    if has_fault(FormFault::Missing, table) {
        return Some(FormFault::Missing);
    }
    if has_fault(FormFault::WrongKind, table) {
        return Some(FormFault::WrongKind);
    }
    None
}
