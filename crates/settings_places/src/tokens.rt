//! The token that has a fault.

ghost use Rattle.std.specs.Prelude.{◌≡◌, IfOk};
ghost use Rattle.std.specs.Option.{option_map};
ghost use Rattle.toml.specs.View.{table_view};
ghost use Rattle.settings_places.specs.Place as spec;

use crate::place::FaultPlace;
use settings_core::tokens::bad_token;
use settings_parts::people::tokens_of;
use std::alloc::{AllocError, Global};
use toml::Table;

/// The first token that isn't of a token's form, and its person.
pub(crate) fn token_place<'t>(
    alloc: Global,
    table: &Table,
) -> Result<Option<FaultPlace<'t>>, AllocError>
    ensures { IfOk result (λ place. option_map spec.seen place
        ≡ spec.token_place (table_view table.now)) }
{
    let tokens = tokens_of(alloc, table)?;
    match bad_token(tokens.as_slice()) {
        Some(bad) => Ok(Some(FaultPlace::Token(bad.token.clone()?, bad.person.clone()?))),
        None => Ok(None),
    }
}
