//! The fields of a form, as the body of a message has them.
ghost use Rattle.std.specs.Prelude.{◌≡◌, ◌++◌, Some, find, map, IfOk};
ghost use Rattle.std.specs.List.{list_all, list_any};
ghost use Rattle.std.specs.Option.{option_map};
ghost use Rattle.std.specs.Str.{bytes_eq};
ghost use Rattle.browser_core.specs.Cuts.{parts_in};
ghost use Rattle.browser_core.specs.Form as form;

use crate::cuts::{cut, name_and_value};
use crate::decode::text_of;
use std::alloc::{AllocError, Global};
use text_core::Text;

/// A field of a form.
#[derive(Drop)]
pub struct Field {
    pub name: Text,
    /// Each line break of it is a line feed.
    pub value: Text,
}

/// The fields of a form, in the order in which they were sent; none where the body isn't that of a
/// form: where a `%` isn't followed by two hexadecimal digits, or what a name or a value stands for
/// isn't UTF-8. An empty body has no fields.
pub fn fields_of(alloc: Global, body: &[u8]) -> Result<Option<Vec<Field>>, AllocError>
    ensures { IfOk result (λ fields. option_map (λ f. f.items) fields ≡ form.fields_of body.now) }
{
    if body.is_empty() {
        return Ok(Some(Vec::new(alloc)));
    }
    fields_in(alloc, body)
}

/// The fields of the pieces of a body.
fn fields_in(alloc: Global, body: &[u8]) -> Result<Option<Vec<Field>>, AllocError>
    ensures { IfOk result (λ fields. option_map (λ f. f.items) fields
        ≡ form.fields_in (parts_in 38 (Some body.now))) }
{
    let mut fields = Vec::new(alloc);
    let mut left = Some(body);
    while let Some(rest) = left {
        let (piece, more) = cut(rest, b'&');
        match field_in(alloc, piece)? {
            Some(field) => fields.push(field)?,
            None => return Ok(None),
        }
        left = more;
    }
    Ok(Some(fields))
}

fn field_in(alloc: Global, piece: &[u8]) -> Result<Option<Field>, AllocError>
    ensures { IfOk result (λ field. field ≡ form.field_in piece.now) }
{
    let (name, value) = name_and_value(piece);
    let Some(name) = text_of(alloc, name)? else {
        return Ok(None);
    };
    let Some(value) = text_of(alloc, value)? else {
        return Ok(None);
    };
    Ok(Some(Field { name, value }))
}

/// The value of the first field of this name.
pub fn value_of<'f>(fields: &'f [Field], name: &str) -> Option<&'f str>
    ensures { option_map (λ v. v.now) result ≡ form.value_of name.now fields.now }
{
    match first_named(fields, name) {
        Some(field) => Some(field.value.as_str()),
        None => None,
    }
}

fn first_named<'f>(fields: &'f [Field], name: &str) -> Option<&'f Field>
    ensures { option_map (λ f. f.now) result
        ≡ find (λ field. bytes_eq field.name name.now) fields.now }
{
    fields.iter().find(|field| field.name.as_str() == name)
}

/// Whether each of the needed names stands there once, each of the others at most once, and no
/// other name.
pub fn has_fields(fields: &[Field], needed: &[&str], others: &[&str]) -> bool
    ensures { result ≡ form.has_fields (map (λ n. n.now) needed.now)
        (map (λ n. n.now) others.now) fields.now }
{
    are_once(fields) && are_among(fields, needed, others) && has_all(fields, needed)
}

/// Whether a field has this name.
pub fn has(fields: &[Field], name: &str) -> bool
    ensures { result ≡ form.has fields.now name.now }
{
    fields.iter().any(|field| field.name.as_str() == name)
}

fn has_all(fields: &[Field], names: &[&str]) -> bool
    ensures { result ≡ list_all (form.has fields.now) (map (λ n. n.now) names.now) }
{
    for name in names {
        if !has(fields, name) {
            return false;
        }
    }
    true
}

fn are_once(fields: &[Field]) -> bool
    ensures { result ≡ form.are_once fields.now }
{
    let mut left = fields;
    while let [first, rest @ ..] = left {
        if has(rest, first.name.as_str()) {
            return false;
        }
        left = rest;
    }
    true
}

#[tactic(auto, using(crate::proofs::Names::among_both))]
fn are_among(fields: &[Field], needed: &[&str], others: &[&str]) -> bool
    ensures { result ≡ list_all (form.is_among (map (λ n. n.now) needed.now
        ++ map (λ n. n.now) others.now)) fields.now }
{
    for field in fields {
        let name = field.name.as_str();
        if !is_among(name, needed) && !is_among(name, others) {
            return false;
        }
    }
    true
}

fn is_among(name: &str, names: &[&str]) -> bool
    ensures { result ≡ list_any (bytes_eq name.now) (map (λ n. n.now) names.now) }
{
    for known in names {
        if name == *known {
            return true;
        }
    }
    false
}
