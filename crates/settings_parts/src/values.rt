//! The values at the keys of a table.

ghost use Rattle.std.specs.Prelude.{◌≡◌, [], IfOk, is_some, unwrap_or, option_and_then};
ghost use Rattle.std.specs.Option.{option_map_or};
ghost use Rattle.toml.specs.Data.{no_members, no_items, as_str, get_member};
ghost use Rattle.toml.specs.View.{view, array_view, table_view};
ghost use Rattle.settings_form.specs.Kinds.{two_of};
ghost use Rattle.settings_parts.specs.Values as spec;

use settings_form::kinds::{two_of, value_at};
use std::alloc::{AllocError, Global};
use text_core::{Text, Texts};
use toml::value::Array;
use toml::{Table, Value};

/// Whether the key is there.
pub fn has_key(table: &Table, key: &str) -> bool
    ensures { result ≡ is_some (get_member key.now (table_view table.now)) }
{
    value_at(table, key).is_some()
}

/// The text at a key, if there is one.
pub fn text_at(alloc: Global, table: &Table, key: &str) -> Result<Option<Text>, AllocError>
    ensures { IfOk result (λ t. t ≡ spec.text_at key.now (table_view table.now)) }
{
    match value_at(table, key) {
        Some(value) => match value.as_str() {
            Some(text) => Ok(Some(Text::new(alloc, text)?)),
            None => Ok(None),
        },
        None => Ok(None),
    }
}

/// The text at a key, empty where there is none.
pub fn text_or_empty(alloc: Global, table: &Table, key: &str) -> Result<Text, AllocError>
    ensures { IfOk result (λ t. t ≡ unwrap_or (spec.text_at key.now (table_view table.now)) []) }
{
    match text_at(alloc, table, key)? {
        Some(text) => Ok(text),
        None => Text::new(alloc, ""),
    }
}

/// The text of a value, empty where it is none.
pub fn text_of(alloc: Global, value: &Value) -> Result<Text, AllocError>
    ensures { IfOk result (λ t. t ≡ unwrap_or (as_str (view value.now)) []) }
{
    match value.as_str() {
        Some(text) => Text::new(alloc, text),
        None => Text::new(alloc, ""),
    }
}

/// The integer at a key, if there is one.
pub fn integer_at(table: &Table, key: &str) -> Option<i64>
    ensures { result ≡ spec.integer_at key.now (table_view table.now) }
{
    match value_at(table, key) {
        Some(value) => value.as_integer(),
        None => None,
    }
}

/// True or false at a key, if either is there.
pub fn boolean_at(table: &Table, key: &str) -> Option<bool>
    ensures { result ≡ spec.boolean_at key.now (table_view table.now) }
{
    match value_at(table, key) {
        Some(value) => value.as_bool(),
        None => None,
    }
}

/// The texts of a list.
fn texts_in(alloc: Global, list: &Array) -> Result<Texts, AllocError>
    ensures { IfOk result (λ t. t ≡ spec.texts_in (array_view list.now)) }
{
    let mut found = Vec::new(alloc);
    for value in list {
        if let Some(text) = value.as_str() {
            found.push(Text::new(alloc, text)?)?;
        }
    }
    Ok(Texts::from(found))
}

/// The texts of a value.
pub fn texts_of(alloc: Global, value: &Value) -> Result<Texts, AllocError>
    ensures { IfOk result (λ t. t ≡ spec.texts_of (view value.now)) }
{
    match value.as_array() {
        Some(list) => texts_in(alloc, list),
        None => Ok(Texts::from(Vec::new(alloc))),
    }
}

/// The texts at a key, none where it is absent.
pub fn texts_at(alloc: Global, table: &Table, key: &str) -> Result<Texts, AllocError>
    ensures { IfOk result (λ t. t ≡ spec.texts_at key.now (table_view table.now)) }
{
    match value_at(table, key) {
        Some(value) => texts_of(alloc, value),
        None => Ok(Texts::from(Vec::new(alloc))),
    }
}

fn integers_of(list: &Array) -> Option<(i64, i64)>
    ensures { result ≡ option_and_then spec.integers_of (two_of (array_view list.now)) }
{
    match two_of(list) {
        Some((first, second)) => both(first.as_integer(), second.as_integer()),
        None => None,
    }
}

fn both(first: Option<i64>, second: Option<i64>) -> Option<(i64, i64)>
    ensures { result ≡ spec.both first second }
{
    match (first, second) {
        (Some(first), Some(second)) => Some((first, second)),
        _ => None,
    }
}

/// The two integers of a value.
fn pair_of(value: &Value) -> Option<(i64, i64)>
    ensures { result ≡ spec.pair_of (view value.now) }
{
    match value.as_array() {
        Some(list) => integers_of(list),
        None => None,
    }
}

/// The two integers at a key, if there are two.
pub fn pair_at(table: &Table, key: &str) -> Option<(i64, i64)>
    ensures { result ≡ spec.pair_at key.now (table_view table.now) }
{
    match value_at(table, key) {
        Some(value) => pair_of(value),
        None => None,
    }
}

/// The pairs of a list.
fn pairs_in(alloc: Global, list: &Array) -> Result<Vec<(i64, i64)>, AllocError>
    ensures { IfOk result (λ v. v.items ≡ spec.pairs_in (array_view list.now)) }
{
    let mut found = Vec::new(alloc);
    for value in list {
        if let Some(pair) = pair_of(value) {
            found.push(pair)?;
        }
    }
    Ok(found)
}

/// The pairs at a key, none where it is absent.
pub fn pairs_at(alloc: Global, table: &Table, key: &str) -> Result<Vec<(i64, i64)>, AllocError>
    ensures { IfOk result (λ v. v.items ≡ spec.pairs_at key.now (table_view table.now)) }
{
    match array_at(table, key) {
        Some(list) => pairs_in(alloc, list),
        None => Ok(Vec::new(alloc)),
    }
}

/// The list at a key, if there is one.
pub fn array_at<'a>(table: &'a Table, key: &str) -> Option<&'a Array>
    ensures { option_map_or (λ a. array_view a.now) result no_items
        ≡ spec.items_at key.now (table_view table.now) }
{
    match value_at(table, key) {
        Some(value) => value.as_array(),
        None => None,
    }
}

/// The table of a value, if it is one.
pub fn table_of(value: &Value) -> Option<&Table>
    ensures { option_map_or (λ t. table_view t.now) result no_members
        ≡ spec.members_of (view value.now) }
{
    value.as_table()
}

/// The table at a key, if there is one.
pub fn table_at<'a>(table: &'a Table, key: &str) -> Option<&'a Table>
    ensures { option_map_or (λ t. table_view t.now) result no_members
        ≡ spec.table_at key.now (table_view table.now) }
{
    match value_at(table, key) {
        Some(value) => table_of(value),
        None => None,
    }
}
