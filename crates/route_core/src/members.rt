//! The body of a message as the members of a JSON object, and what they are.
ghost use Rattle.std.specs.Prelude.{◌≡◌, IfOk, map, string_bytes};
ghost use Rattle.std.specs.BTreeMap.{keys as map_keys};
ghost use Rattle.std.specs.List.{list_all};
ghost use Rattle.std.specs.Option.{option_map};
ghost use Rattle.serde_json.specs.Find.{as_object, get_member};
ghost use Rattle.serde_json.specs.View.{items_view, members_view, view};
ghost use Rattle.desk_forms.specs.Keys as keys;
ghost use Rattle.desk_forms.specs.Kinds.{argument_of};
ghost use Rattle.route_core.specs.Members as spec;
ghost use Rattle.desk_forms.specs.Paths.{bound_of};

use desk_forms::keys::is_key;
use desk_forms::kinds::Arg;
use desk_forms::paths::PathParameter;
use serde_json::{Map, Value};
use std::alloc::{AllocError, Global};
use text_core::{Text, Texts};

/// The members of a JSON object.
pub(crate) type Members = Map<String, Value>;

/// The members of the object that a body is, if it is one; an empty body has none.
pub(crate) fn members_of(alloc: Global, body: &[u8]) -> Result<Option<Members>, AllocError>
    ensures { IfOk result (λ members.
        option_map (λ m. members_view m.entries) members ≡ spec.members_of body.now) }
{
    if body.is_empty() {
        return Ok(Some(Map::new(alloc)));
    }
    match Value::from_slice(alloc, body) {
        Ok(value) => Ok(object_in(value)),
        Err(e) => {
            if e.is_memory() {
                Err(AllocError)
            } else {
                Ok(None)
            }
        }
    }
}

/// The members of the object that a value is, if it is one.
fn object_in(value: Value) -> Option<Members>
    ensures { option_map (λ m. members_view m.entries) result ≡ as_object (view value) }
{
    match value {
        Value::Object(members) => Some(members),
        _ => None,
    }
}

fn all_are_keys(bound: PathParameter<'_>, args: &[Arg], members: &Members) -> bool
    ensures { result ≡ list_all (λ key.
        keys.is_key (bound_of bound.entry) (map argument_of args.now) (string_bytes key))
        (map_keys members.now) }
{
    members.keys().all(|key| is_key(bound, args, key.as_str()))
}

/// Whether each key is that of an argument that a body has.
pub(crate) fn has_only(bound: PathParameter<'_>, args: &[Arg], members: &Members) -> bool
    ensures { result ≡ spec.has_only (bound_of bound.entry) (map argument_of args.now)
        (members_view members.now.entries) }
{
    all_are_keys(bound, args, members)
}

/// The value at a key.
fn value_at<'a>(members: &'a Members, key: &str) -> Option<&'a Value>
    ensures { option_map (λ v. view v.now) result
        ≡ get_member key.now (members_view members.now.entries) }
{
    members.get(key)
}

/// The text at a key, if there is one.
pub(crate) fn text_at<'a>(members: &'a Members, key: &str) -> Option<&'a str>
    ensures { option_map (λ t. t.now) result
        ≡ spec.text_at key.now (members_view members.now.entries) }
{
    match value_at(members, key) {
        Some(value) => value.as_str(),
        None => None,
    }
}

/// The text that a value is, or none where it is null; nothing where it is something else.
#[tactic(auto, using(crate::proofs::TreeLemmas::null_or_text))]
fn text_or_null(value: &Value) -> Option<Option<&str>>
    ensures { option_map (λ text. option_map (λ t. t.now) text) result
        ≡ spec.text_or_null (view value.now) }
{
    if value.is_null() {
        return Some(None);
    }
    match value.as_str() {
        Some(text) => Some(Some(text)),
        None => None,
    }
}

/// The text at a key that may be left out, also as null; nothing where something else stands for
/// it.
pub(crate) fn text_or_none_at<'a>(members: &'a Members, key: &str) -> Option<Option<&'a str>>
    ensures { option_map (λ text. option_map (λ t. t.now) text) result
        ≡ spec.text_or_none_at key.now (members_view members.now.entries) }
{
    match value_at(members, key) {
        Some(value) => text_or_null(value),
        None => Some(None),
    }
}

/// Copies of the items, where each is a text.
fn texts_in(alloc: Global, items: &[Value]) -> Result<Option<Texts>, AllocError>
    ensures { IfOk result (λ texts. texts ≡ spec.texts_in (items_view items.now)) }
{
    let mut texts = Vec::new(alloc);
    for value in items {
        match value.as_str() {
            Some(text) => texts.push(Text::new(alloc, text)?)?,
            None => return Ok(None),
        }
    }
    Ok(Some(Texts::from(texts)))
}

/// Copies of the texts at a key that may be left out; nothing where something else than a list of
/// texts stands for it.
pub(crate) fn texts_at(
    alloc: Global,
    members: &Members,
    key: &str,
) -> Result<Option<Texts>, AllocError>
    ensures { IfOk result (λ texts.
        texts ≡ spec.texts_at key.now (members_view members.now.entries)) }
{
    match value_at(members, key) {
        Some(value) => match value.as_array() {
            Some(items) => texts_in(alloc, items),
            None => Ok(None),
        },
        None => Ok(Some(Texts::from(Vec::new(alloc)))),
    }
}

/// The whole number that a value is, written in digits alone and less than 2^32.
fn whole_number(value: &Value) -> Option<u32>
    ensures { result ≡ spec.whole_number (view value.now) }
{
    match value.as_u64() {
        Some(number) => {
            if number < 4_294_967_296 {
                Some(number as u32)
            } else {
                None
            }
        }
        None => None,
    }
}

/// The whole number at a key, if there is one.
pub(crate) fn number_at(members: &Members, key: &str) -> Option<u32>
    ensures { result ≡ spec.number_at key.now (members_view members.now.entries) }
{
    match value_at(members, key) {
        Some(value) => whole_number(value),
        None => None,
    }
}
