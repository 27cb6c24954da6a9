//! What was given for a command, and the command for which it asks.

ghost use Rattle.std.specs.Prelude.{◌≡◌, map, IfOk};
ghost use Rattle.std.specs.Option.{option_map};
ghost use Rattle.desk_forms.specs.CommandFrom as source;
ghost use Rattle.desk_forms.specs.ArgumentSource as spec;
ghost use Rattle.desk_forms.specs.Table.{arguments};
ghost use Rattle.desk_forms.specs.Kinds.{argument_of};
ghost use Rattle.desk_forms.specs.Arguments as values;
ghost use Rattle.desk_forms.specs.Arguments.{values_of};

use crate::arguments::{Arguments, no_arguments};
use crate::kinds::{Arg, Kind};
use crate::links::kind_named;
use crate::roles::role_named;
use crate::table::{CommandForm, args_of, build_command};
use desk_model::Command;
use std::alloc::{AllocError, Global};
use text_core::Texts;

/// What was given for a command, by the keys of its arguments.
pub trait ArgumentSource {
    ghost use Rattle.std.specs.Prelude.{◌≡◌, IfOk};
    ghost use Rattle.std.specs.Option.{option_map};
    ghost use Rattle.desk_forms.specs.ArgumentSource as spec;

    ghost sheet: { Self → spec.ArgumentSource };

    /// The request that is meant.
    fn id(&self, key: &str) -> Option<u32>
        ensures { result ≡ (sheet self.now).id key.now };

    /// The queue that is meant.
    fn queue(&self, key: &str) -> Option<&str>
        ensures { option_map (λ t. t.now) result ≡ (sheet self.now).queue key.now };

    /// Another number.
    fn number(&self, key: &str) -> Option<u32>
        ensures { result ≡ (sheet self.now).number key.now };

    /// A text.
    fn text(&self, key: &str) -> Option<&str>
        ensures { option_map (λ t. t.now) result ≡ (sheet self.now).text key.now };

    /// A text that may be left out; nothing where something else stands for it.
    fn maybe(&self, key: &str) -> Option<Option<&str>>
        ensures { option_map (λ text. option_map (λ t. t.now) text) result
            ≡ (sheet self.now).maybe key.now };

    /// Copies of texts.
    fn texts(&self, alloc: Global, key: &str) -> Result<Option<Texts>, AllocError>
        ensures { IfOk result (λ texts. texts ≡ (sheet self.now).texts key.now) };

    /// Whether a sign is set.
    fn is_set(&self, key: &str) -> bool
        ensures { result ≡ (sheet self.now).is_set key.now };
}

/// The command of a form for which the sheet asks, if it gives what the form needs.
pub fn command_from<S: ArgumentSource>(
    alloc: Global,
    of: CommandForm,
    sheet: &S,
) -> Result<Option<Command>, AllocError>
    ensures { IfOk result (λ c. c ≡ source.command_from of (S.sheet sheet.now)) }
{
    let args = args_of(of);
    let Some(many) = many_in(alloc, args, sheet)? else {
        return Ok(None);
    };
    match put_all(args, sheet, no_arguments()) {
        Some(v) => Ok(Some(build_command(alloc, of, &v, many.as_slice())?)),
        None => Ok(None),
    }
}

/// The values with all that is given for these arguments.
fn put_all<'s, S: ArgumentSource>(
    args: &[Arg],
    sheet: &'s S,
    no_arguments: Arguments<'s>,
) -> Option<Arguments<'s>>
    ensures { option_map values_of result
        ≡ values.put_all (map argument_of args.now) (S.sheet sheet.now) (values_of no_arguments.entry) }
{
    let mut v = no_arguments;
    for arg in args {
        match put(arg.1, arg.0, sheet, v) {
            Some(more) => v = more,
            None => return None,
        }
    }
    Some(v)
}

/// The values with what is given for an argument, if that is of its kind.
fn put<'s, S: ArgumentSource>(
    kind: Kind,
    key: &str,
    sheet: &'s S,
    v: Arguments<'s>,
) -> Option<Arguments<'s>>
    ensures { option_map values_of result
        ≡ values.put kind key.now (S.sheet sheet.now) (values_of v.entry) }
{
    match kind {
        Kind::Id => Some(Arguments {
            id: sheet.id(key)?,
            ..v
        }),
        Kind::Other => Some(Arguments {
            other: sheet.number(key)?,
            ..v
        }),
        Kind::Queue => Some(Arguments {
            queue: sheet.queue(key)?,
            ..v
        }),
        Kind::Text => Some(Arguments {
            text: sheet.text(key)?,
            ..v
        }),
        Kind::Role => Some(Arguments {
            role: role_named(sheet.text(key)?)?,
            ..v
        }),
        Kind::Link => Some(Arguments {
            link: kind_named(sheet.text(key)?)?,
            ..v
        }),
        Kind::Maybe => Some(Arguments {
            maybe: sheet.maybe(key)?,
            ..v
        }),
        Kind::Named => Some(Arguments {
            maybe: sheet.maybe(key)?,
            ..v
        }),
        Kind::Many => Some(v),
        Kind::Flag(_) => Some(Arguments {
            delete: sheet.is_set(key),
            ..v
        }),
    }
}

fn is_many(kind: Kind) -> bool
    ensures { result ≡ values.is_many kind }
{
    match kind {
        Kind::Many => true,
        _ => false,
    }
}

/// Copies of the texts of an argument that is many, where there is one.
fn many_in<S: ArgumentSource>(
    alloc: Global,
    args: &[Arg],
    sheet: &S,
) -> Result<Option<Texts>, AllocError>
    ensures { IfOk result (λ many.
        many ≡ values.many_in (map argument_of args.now) (S.sheet sheet.now)) }
{
    for arg in args {
        if is_many(arg.1) {
            return sheet.texts(alloc, arg.0);
        }
    }
    Ok(Some(Texts::from(Vec::new(alloc))))
}
