//! The command for which the fields of a form ask.

ghost use Rattle.std.specs.Prelude.{◌≡◌, map, IfOk, unwrap_or, []};
ghost use Rattle.std.specs.Option.{option_and_then, option_map};
ghost use Rattle.browser_core.specs.Form.{value_of as value_in};
ghost use Rattle.desk_forms.specs.Number as number;
ghost use Rattle.desk_forms.specs.Paths.{bound_of};
ghost use Rattle.page_routes.specs.FormArguments as filled;

use browser_core::{Field, has_fields, value_of};
use desk_forms::argument_source::{ArgumentSource, command_from};
use desk_forms::number_of_word;
use desk_forms::paths::PathParameter;
use desk_forms::table::CommandForm;
use desk_model::Command;
use std::alloc::{AllocError, Global};
use text_core::{Text, Texts};

/// The names of the fields that a form sends.
fn needed(of: CommandForm) -> &'static [&'static str]
    ensures { map (λ n. n.now) result.now ≡ filled.needed of }
{
    match of {
        CommandForm::OpenQueue => &["me", "queue", "lifecycle", "level"],
        CommandForm::Create => &["me", "subject", "requestors"],
        CommandForm::SetStatus => &["me", "status"],
        CommandForm::SetLevel => &["me", "level"],
        CommandForm::Give => &["me", "person"],
        CommandForm::Reply => &["me", "seen", "text"],
        CommandForm::Comment => &["me", "text"],
        CommandForm::Watch => &["me", "role", "person"],
        CommandForm::Unwatch => &["me", "role", "person"],
        CommandForm::Link => &["me", "kind", "other"],
        CommandForm::Unlink => &["me", "kind", "other"],
        _ => &["me"],
    }
}

/// The names of those that it may send.
fn others(of: CommandForm) -> &'static [&'static str]
    ensures { map (λ n. n.now) result.now ≡ filled.others of }
{
    match of {
        CommandForm::Create => &["status", "text"],
        CommandForm::Reply => &["status"],
        _ => &[],
    }
}

/// The value of a field, where an empty one is none.
pub(crate) fn filled_value<'f>(fields: &'f [Field], name: &str) -> Option<&'f str>
    ensures { option_map (λ t. t.now) result ≡ filled.filled (value_in name.now fields.now) }
{
    match value_of(fields, name) {
        Some(value) => { if value.is_empty() { None } else { Some(value) } }
        None => None,
    }
}

/// The number that a field's value is.
fn number_at(fields: &[Field], name: &str) -> Option<u32>
    ensures { result ≡ option_and_then number.number_of (value_in name.now fields.now) }
{
    match value_of(fields, name) {
        Some(value) => number_of_word(value),
        None => None,
    }
}

/// The value of a field, and nothing where there is none.
pub(crate) fn typed<'f>(fields: &'f [Field], name: &str) -> &'f str
    ensures { result.now ≡ unwrap_or (value_in name.now fields.now) [] }
{
    match value_of(fields, name) {
        Some(value) => value,
        None => "",
    }
}

/// The number of the last entry that the page of a form showed, and 0 where none is told.
pub(crate) fn seen_in(fields: &[Field]) -> u32
    ensures { result ≡ filled.seen_in fields.now }
{
    match number_at(fields, "seen") {
        Some(seen) => seen,
        None => 0,
    }
}

/// Whether a form that has to tell such a number tells one.
fn tells_seen(of: CommandForm, fields: &[Field]) -> bool
    ensures { result ≡ filled.tells_seen of fields.now }
{
    match of {
        CommandForm::Reply => number_at(fields, "seen").is_some(),
        _ => true,
    }
}

/// Copies of the names that stand between spaces.
fn names_in(alloc: Global, text: &str) -> Result<Texts, AllocError>
    ensures { IfOk result (λ names. names ≡ filled.names_in text.now) }
{
    let mut names = Vec::new(alloc);
    for name in text.split(' ') {
        if !name.is_empty() {
            names.push(Text::new(alloc, name)?)?;
        }
    }
    Ok(Texts::from(names))
}

/// What the path of a message names, and the fields of its body.
#[derive(Drop)]
struct FormArguments<'f> {
    bound: PathParameter<'f>,
    fields: &'f [Field],
}

impl ArgumentSource for FormArguments<'_> {
    ghost use Rattle.desk_forms.specs.Paths.{bound_of};
    ghost use Rattle.page_routes.specs.FormArguments.{sheet_of};

    ghost sheet = { λ s. sheet_of (bound_of s.bound) s.fields.now };

    fn id(&self, _key: &str) -> Option<u32> {
        match self.bound {
            PathParameter::Request(id) => Some(id),
            _ => None,
        }
    }

    fn queue(&self, key: &str) -> Option<&str> {
        match self.bound {
            PathParameter::Queue(queue) => Some(queue),
            _ => value_of(self.fields, key),
        }
    }

    fn number(&self, key: &str) -> Option<u32> {
        number_at(self.fields, key)
    }

    fn text(&self, key: &str) -> Option<&str> {
        value_of(self.fields, key)
    }

    fn maybe(&self, key: &str) -> Option<Option<&str>> {
        Some(filled_value(self.fields, key))
    }

    fn texts(&self, alloc: Global, key: &str) -> Result<Option<Texts>, AllocError> {
        Ok(Some(names_in(alloc, typed(self.fields, key))?))
    }

    fn is_set(&self, _key: &str) -> bool {
        false
    }
}

/// The command of a form at a path that names this, where the fields are just its own, and a reply
/// tells by a number up to where the history was seen.
pub(crate) fn command_in(
    alloc: Global,
    of: CommandForm,
    bound: PathParameter<'_>,
    fields: &[Field],
) -> Result<Option<Command>, AllocError>
    ensures { IfOk result (λ c.
        c ≡ filled.command_in of (bound_of bound.entry) fields.now) }
{
    if !has_fields(fields, needed(of), others(of)) || !tells_seen(of, fields) {
        return Ok(None);
    }
    command_from(alloc, of, &FormArguments { bound, fields })
}
