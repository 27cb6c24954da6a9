//! The body of a message.
ghost use Rattle.std.specs.Prelude.{◌≡◌, ◌≤◌, IfOk, IsUtf8, Some, map};
ghost use Rattle.std.specs.Option.{option_map};
ghost use Rattle.serde_json.specs.Data.{depth, no_members, number as num, object, string, unsigned};
ghost use Rattle.serde_json.specs.Read.{max_depth, read};
ghost use Rattle.serde_json.specs.View.{items_of, items_view, members_view, view};
ghost use Rattle.desk_forms.specs.Kinds.{argument_of};
ghost use Rattle.desk_forms.specs.Paths.{bound_of, path_of};
ghost use Rattle.desk_forms.specs.Arguments.{values_of};
ghost use Rattle.client_core.specs.Body as spec;

use crate::spelled::{link_name, role_name};
use crate::target::named;
use desk_forms::arguments::Arguments;
use desk_forms::kinds::{Arg, Kind};
use desk_forms::paths::{Method, Path, PathParameter};
use desk_forms::table::args_of;
use serde_json::{Map, Value, put};
use std::alloc::{AllocError, Global};
use text_core::Text;

/// The members of a JSON object.
type Members = Map<String, Value>;

/// The body of a message to this row of the table: empty for a GET.
#[tactic(auto, using(crate::proofs::Shallow::low))]
pub(crate) fn body_for(
    alloc: Global,
    row: &Path,
    values: &Arguments<'_>,
    many: &[Text],
) -> Result<Vec<u8>, AllocError>
    ensures { IfOk result (λ body.
        spec.Writes (path_of row.now) (values_of values.now) many.now body.items) }
{
    match row.0 {
        Method::Get => Ok(Vec::new(alloc)),
        Method::Post => {
            let bound = named(row.1, values);
            let members = members_of(alloc, bound, args_of(row.2), values, many)?;
            object_text(alloc, members)
        }
    }
}

/// The text of an object that nests little.
fn object_text(alloc: Global, members: Members) -> Result<Vec<u8>, AllocError>
    ensures text { IfOk result (λ text. IsUtf8 text.items) }
    ensures reads { depth (object (members_view members.entries)) ≤ max_depth
        → IfOk result (λ text. read text.items ≡ Some (object (members_view members.entries))) }
{
    Value::from(members).to_vec(alloc)
}

/// What is posted of the arguments.
fn members_of(
    alloc: Global,
    bound: PathParameter<'_>,
    args: &[Arg],
    values: &Arguments<'_>,
    many: &[Text],
) -> Result<Members, AllocError>
    ensures { IfOk result (λ ms. members_view ms.entries
        ≡ spec.with_all (bound_of bound.entry) (map argument_of args.now) (values_of values.now)
        many.now no_members) }
{
    let mut members = Map::new(alloc);
    for arg in args {
        let value = value_of(alloc, bound, arg.1, values, many)?;
        put_if(alloc, &mut members, arg.0, value)?;
    }
    Ok(members)
}

fn put_if(
    alloc: Global,
    members: &mut Members,
    key: &str,
    value: Option<Value>,
) -> Result<(), AllocError>
    ensures { IfOk result (λ _. members_view members.new.entries
        ≡ spec.put_if key.now (option_map view value) (members_view members.old.entries)) }
{
    match value {
        Some(value) => put(members, alloc, key, value),
        None => Ok(()),
    }
}

/// What is posted of an argument of the kind, if anything is.
fn value_of(
    alloc: Global,
    bound: PathParameter<'_>,
    kind: Kind,
    values: &Arguments<'_>,
    many: &[Text],
) -> Result<Option<Value>, AllocError>
    ensures { IfOk result (λ value. option_map view value
        ≡ spec.value_of (bound_of bound.entry) kind (values_of values.now) many.now) }
{
    match kind {
        Kind::Id => Ok(None),
        Kind::Flag(_) => Ok(None),
        Kind::Other => Ok(Some(number(values.other))),
        Kind::Queue => queue_of(alloc, bound, values.queue),
        Kind::Text => some_text(alloc, values.text),
        Kind::Role => some_text(alloc, role_name(values.role)),
        Kind::Link => some_text(alloc, link_name(values.link)),
        Kind::Maybe => maybe_text(alloc, values.maybe),
        Kind::Named => maybe_text(alloc, values.maybe),
        Kind::Many => Ok(Some(Value::Array(list_of(alloc, many)?))),
    }
}

fn number(number: u32) -> Value
    ensures { view result ≡ num (unsigned number) }
{
    Value::from(number)
}

fn queue_of(
    alloc: Global,
    bound: PathParameter<'_>,
    queue: &str,
) -> Result<Option<Value>, AllocError>
    ensures { IfOk result (λ value. option_map view value
        ≡ spec.queue_of (bound_of bound.entry) queue.now) }
{
    match bound {
        PathParameter::Queue(_) => Ok(None),
        _ => some_text(alloc, queue),
    }
}

fn some_text(alloc: Global, text: &str) -> Result<Option<Value>, AllocError>
    ensures { IfOk result (λ value. option_map view value ≡ Some (string text.now)) }
{
    Ok(Some(Value::try_from_str(alloc, text)?))
}

fn maybe_text(alloc: Global, text: Option<&str>) -> Result<Option<Value>, AllocError>
    ensures { IfOk result (λ value. option_map view value
        ≡ option_map string (option_map (λ t. t.now) text.entry)) }
{
    match text {
        Some(text) => some_text(alloc, text),
        None => Ok(None),
    }
}

#[tactic(auto, using(crate::proofs::Lists::one_more))]
fn list_of(alloc: Global, texts: &[Text]) -> Result<Vec<Value>, AllocError>
    ensures { IfOk result (λ list. items_view list.items
        ≡ items_of (map string texts.now)) }
{
    let mut list = Vec::new(alloc);
    for text in texts {
        list.push(Value::try_from_str(alloc, text.as_str())?)?;
    }
    Ok(list)
}
