//! The grant tables of a settings text, by the grants that they make.

ghost use Rattle.std.specs.Prelude.{◌≡◌, IfOk, length};
ghost use Rattle.std.specs.Option.{option_map};
ghost use Rattle.toml.specs.View.{array_view, table_view};
ghost use Rattle.settings_parts.specs.PeopleParts.{grants_at};
ghost use Rattle.settings_places.specs.Grants as spec;

use rights_core::Grant;
use settings_parts::people::add_grants;
use settings_parts::values::{array_at, table_of};
use std::alloc::{AllocError, Global};
use toml::Table;
use toml::value::Array;

/// The grant of this index among these, which a text's tables make; the number of its table, from
/// 1, and that table.
pub(crate) fn grant_at<'t, 'g>(
    alloc: Global,
    table: &'t Table,
    grants: &'g [Grant],
    index: usize,
) -> Result<Option<(usize, &'t Table, &'g Grant)>, AllocError>
    ensures { IfOk result (λ at. option_map (λ f. (f.0, table_view f.1.now, f.2.now)) at
        ≡ spec.grant_at (table_view table.now) grants.now index) }
{
    let Some(grant) = grants.get(index) else {
        return Ok(None);
    };
    match table_of_grant(alloc, table, index)? {
        Some((number, made_by)) => Ok(Some((number, made_by, grant))),
        None => Ok(None),
    }
}

fn table_of_grant(
    alloc: Global,
    table: &Table,
    index: usize,
) -> Result<Option<(usize, &Table)>, AllocError>
    ensures { IfOk result (λ at. option_map (λ f. (f.0, table_view f.1.now)) at
        ≡ spec.table_of_grant (table_view table.now) index) }
{
    match array_at(table, "grant") {
        Some(list) => table_among(alloc, list, index),
        None => Ok(None),
    }
}

fn table_among(
    alloc: Global,
    list: &Array,
    index: usize,
) -> Result<Option<(usize, &Table)>, AllocError>
    ensures { IfOk result (λ at. option_map (λ f. (f.0, table_view f.1.now)) at
        ≡ spec.table_among 1 index (array_view list.now)) }
{
    let mut number = 0;
    let mut left = index;
    for value in list {
        number += 1;
        if let Some(table) = table_of(value) {
            let count = grant_count(alloc, table)?;
            if left < count {
                return Ok(Some((number, table)));
            }
            left -= count;
        }
    }
    Ok(None)
}

/// How many grants a table makes.
fn grant_count(alloc: Global, table: &Table) -> Result<usize, AllocError>
    ensures { IfOk result (λ n. n ≡ length (grants_at (table_view table.now))) }
{
    let mut made = Vec::new(alloc);
    add_grants(alloc, table, &mut made)?;
    Ok(made.len())
}
