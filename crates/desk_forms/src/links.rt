//! Kinds of links by their names.

ghost use Rattle.std.specs.Prelude.{◌≡◌};
ghost use Rattle.desk_forms.specs.Links as links;

use desk_model::{Command, LinkKind};

/// A kind of link as a word names it: by its own name, or by that of its inverse, where the two
/// requests change places.
#[derive(Clone, Copy)]
pub enum NamedKind {
    /// By its own name.
    Plain(LinkKind),
    /// By the name of its inverse.
    Inverse(LinkKind),
}

/// The command that puts the link, or that takes it away. By an inverse the two requests change
/// places.
pub fn linking(delete: bool, id: u32, kind: NamedKind, other: u32) -> Command
    ensures { result ≡ links.linking delete id kind other }
{
    match kind {
        NamedKind::Plain(kind) => link_or_unlink(delete, id, kind, other),
        NamedKind::Inverse(kind) => link_or_unlink(delete, other, kind, id),
    }
}

fn link_or_unlink(delete: bool, id: u32, kind: LinkKind, other: u32) -> Command
    ensures { result ≡ links.link_or_unlink delete id kind other }
{
    if delete {
        Command::Unlink { id, kind, other }
    } else {
        Command::Link { id, kind, other }
    }
}

/// The kind of link that the word names, by itself or by its inverse, or none.
pub fn kind_named(word: &str) -> Option<NamedKind>
    ensures { result ≡ links.kind_named word.now }
{
    match word {
        "DependsOn" => Some(NamedKind::Plain(LinkKind::DependsOn)),
        "MemberOf" => Some(NamedKind::Plain(LinkKind::MemberOf)),
        "RefersTo" => Some(NamedKind::Plain(LinkKind::RefersTo)),
        "DependedOnBy" => Some(NamedKind::Inverse(LinkKind::DependsOn)),
        "HasMember" => Some(NamedKind::Inverse(LinkKind::MemberOf)),
        "ReferredToBy" => Some(NamedKind::Inverse(LinkKind::RefersTo)),
        _ => None,
    }
}
