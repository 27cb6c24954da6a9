//! Roles of watchers by their names.

ghost use Rattle.std.specs.Prelude.{◌≡◌};
ghost use Rattle.desk_forms.specs.Roles as roles;

use desk_model::WatchRole;

/// The role that the word names, or none.
pub fn role_named(word: &str) -> Option<WatchRole>
    ensures { result ≡ roles.role_named word.now }
{
    match word {
        "requestor" => Some(WatchRole::Requestor),
        "cc" => Some(WatchRole::Cc),
        "admincc" => Some(WatchRole::AdminCc),
        _ => None,
    }
}
