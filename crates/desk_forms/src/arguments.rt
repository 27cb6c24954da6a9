//! The values of a command's arguments.

ghost use Rattle.std.specs.Prelude.{◌≡◌, IfOk};
ghost use Rattle.std.specs.Option.{option_map};
ghost use Rattle.desk_forms.specs.Arguments as values;
ghost use Rattle.desk_forms.specs.Arguments.{values_of};

use crate::links::NamedKind;
use desk_model::{LinkKind, WatchRole};
use std::alloc::{AllocError, Global};
use text_core::{Text, Texts};

/// A value of each kind.
#[derive(Clone, Copy)]
pub struct Arguments<'a> {
    pub id: u32,
    pub other: u32,
    pub queue: &'a str,
    pub text: &'a str,
    pub maybe: Option<&'a str>,
    pub role: WatchRole,
    pub link: NamedKind,
    pub delete: bool,
}

/// Before anything is read.
pub(crate) fn no_arguments<'a>() -> Arguments<'a>
    ensures { values_of result ≡ values.no_arguments }
{
    Arguments {
        id: 0,
        other: 0,
        queue: "",
        text: "",
        maybe: None,
        role: WatchRole::Requestor,
        link: NamedKind::Plain(LinkKind::DependsOn),
        delete: false,
    }
}

/// A copy of a text, if there is one.
pub(crate) fn copied(alloc: Global, text: Option<&str>) -> Result<Option<Text>, AllocError>
    ensures { IfOk result (λ t. t ≡ option_map (λ s. s.now) text.entry) }
{
    match text {
        Some(text) => Ok(Some(Text::new(alloc, text)?)),
        None => Ok(None),
    }
}

/// Copies of texts.
pub(crate) fn copies(alloc: Global, texts: &[Text]) -> Result<Texts, AllocError>
    ensures { IfOk result (λ copies. copies ≡ texts.now) }
{
    let mut copies = Vec::new(alloc);
    for text in texts {
        copies.push(text.clone()?)?;
    }
    Ok(Texts::from(copies))
}
