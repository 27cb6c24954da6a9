//! What a message says at a path, and the command for which it asks.

ghost use Rattle.std.specs.Prelude.{◌≡◌, IfOk};
ghost use Rattle.serde_json.specs.View.{members_view};
ghost use Rattle.desk_forms.specs.Paths.{bound_of};
ghost use Rattle.route_core.specs.JsonArguments as said;

use crate::members::{Members, has_only, number_at, text_at, text_or_none_at, texts_at};
use desk_forms::argument_source::{ArgumentSource, command_from};
use desk_forms::paths::PathParameter;
use desk_forms::table::{CommandForm, args_of};
use desk_model::Command;
use std::alloc::{AllocError, Global};
use text_core::Texts;

/// What the path of a message names, and the members of its body.
#[derive(Drop)]
struct JsonArguments<'m> {
    bound: PathParameter<'m>,
    members: &'m Members,
}

impl ArgumentSource for JsonArguments<'_> {
    ghost use Rattle.serde_json.specs.View.{members_view};
    ghost use Rattle.desk_forms.specs.Paths.{bound_of};
    ghost use Rattle.route_core.specs.JsonArguments.{sheet_of};

    ghost sheet = { λ s. sheet_of (bound_of s.bound) (members_view s.members.now.entries) };

    fn id(&self, _key: &str) -> Option<u32> {
        match self.bound {
            PathParameter::Request(id) => Some(id),
            _ => None,
        }
    }

    fn queue(&self, key: &str) -> Option<&str> {
        match self.bound {
            PathParameter::Queue(queue) => Some(queue),
            _ => text_at(self.members, key),
        }
    }

    fn number(&self, key: &str) -> Option<u32> {
        number_at(self.members, key)
    }

    fn text(&self, key: &str) -> Option<&str> {
        text_at(self.members, key)
    }

    fn maybe(&self, key: &str) -> Option<Option<&str>> {
        text_or_none_at(self.members, key)
    }

    fn texts(&self, alloc: Global, key: &str) -> Result<Option<Texts>, AllocError> {
        texts_at(alloc, self.members, key)
    }

    fn is_set(&self, _key: &str) -> bool {
        false
    }
}

/// The command of a form for which these members ask at a path that names this, if they are what
/// the form needs.
pub(crate) fn said_by(
    alloc: Global,
    of: CommandForm,
    bound: PathParameter<'_>,
    members: &Members,
) -> Result<Option<Command>, AllocError>
    ensures { IfOk result (λ c.
        c ≡ said.said_by of (bound_of bound.entry) (members_view members.now.entries)) }
{
    if !has_only(bound, args_of(of), members) {
        return Ok(None);
    }
    command_from(alloc, of, &JsonArguments { bound, members })
}
