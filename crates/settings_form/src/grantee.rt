//! Whom a grant is for, as a text says it.

ghost use Rattle.std.specs.Prelude.{◌≡◌};
ghost use Rattle.std.specs.Option.{option_copied, option_map};
ghost use Rattle.rights_core.specs.declared.grant.Subject.TheVariants as subject;
ghost use Rattle.settings_form.specs.Grantee as spec;

use rights_core::Role;

/// Whom a grant is for.
#[derive(Clone, Copy)]
pub enum Grantee<'a> {
    Everyone,
    /// Whoever has the role on the request.
    Role(Role),
    /// The person of this name.
    Person(&'a str),
    /// The members of the group of this name.
    Group(&'a str),
}

/// Whom the text says: `everyone`, `role:` with `owner`, `requestor`, `cc` or `admincc`, or
/// `person:` or `group:` with a name. None of any other text.
pub fn grantee_of(text: &str) -> Option<Grantee<'_>>
    ensures { option_map spec.subject_of result ≡ spec.subject_in text.now }
{
    if text == "everyone" {
        return Some(Grantee::Everyone);
    }
    match after(text, "role:") {
        Some(role) => with_role(role),
        None => named(text),
    }
}

fn with_role(name: &str) -> Option<Grantee<'_>>
    ensures { option_map spec.subject_of result ≡ option_map subject.Role (spec.role_named name.now) }
{
    Some(Grantee::Role(role_named(name)?))
}

fn role_named(name: &str) -> Option<Role>
    ensures { result ≡ spec.role_named name.now }
{
    match name {
        "owner" => Some(Role::Owner),
        "requestor" => Some(Role::Requestor),
        "cc" => Some(Role::Cc),
        "admincc" => Some(Role::AdminCc),
        _ => None,
    }
}

/// The person or the group whose name stands in the text.
fn named(text: &str) -> Option<Grantee<'_>>
    ensures { option_map spec.subject_of result ≡ spec.subject_named text.now }
{
    match after(text, "person:") {
        Some(name) => Some(Grantee::Person(name)),
        None => Some(Grantee::Group(after(text, "group:")?)),
    }
}

/// What follows in the text, where it begins so.
fn after<'a>(text: &'a str, start: &str) -> Option<&'a str>
    ensures { option_copied result ≡ spec.after text.now start.now }
{
    text.strip_prefix(start)
}
