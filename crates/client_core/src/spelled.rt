//! Where the table asks for a command, and the values that make it.
ghost use Rattle.std.specs.Prelude.{◌≡◌, false};
ghost use Rattle.std.specs.Option.{option_map};
ghost use Rattle.desk_forms.specs.Arguments.{values_of};
ghost use Rattle.desk_forms.specs.declared.links.NamedKind.TheVariants.{Plain};
ghost use Rattle.client_core.specs.Spelled as spec;
ghost use Rattle.client_core.specs.Spelled.{Makes};

use desk_forms::arguments::Arguments;
use desk_forms::links::NamedKind;
use desk_model::{Command, LinkKind, WatchRole};
use text_core::Text;

/// The place of a command's row in the table of paths, and the values by which that makes this
/// command, with its texts. A link is named by its own kind: where words named the inverse, they
/// have changed its ends already.
#[tactic(auto, unfolding(desk_forms::specs::Table::paths))]
pub(crate) fn route_and_arguments_of(command: &Command) -> (usize, Arguments<'_>)
    ensures { Makes result.0 (values_of result.1) command.entry.now }
{
    match command {
        Command::Queues => (0, nothing()),
        Command::OpenQueue {
            queue,
            lifecycle,
            level,
        } => (1, in_queue(queue, lifecycle, level)),
        Command::List { queue } => (2, of_queue(queue)),
        Command::Create {
            queue,
            subject,
            status,
            ..
        } => (3, in_queue(queue, subject, status)),
        Command::Show { id } => (4, on_request(*id)),
        Command::History { id } => (5, on_request(*id)),
        Command::SetStatus { id, status } => (6, with_text(*id, status)),
        Command::Take { id } => (7, on_request(*id)),
        Command::Steal { id } => (8, on_request(*id)),
        Command::Untake { id } => (9, on_request(*id)),
        Command::Give { id, person } => (10, with_text(*id, person)),
        Command::Reply { id, text } => (11, with_text(*id, text)),
        Command::Comment { id, text } => (12, with_text(*id, text)),
        Command::Watch { id, role, person } => (13, with_role(*id, *role, person)),
        Command::Unwatch { id, role, person } => (14, with_role(*id, *role, person)),
        Command::Link { id, kind, other } => (15, with_link(*id, *kind, *other)),
        Command::Unlink { id, kind, other } => (16, with_link(*id, *kind, *other)),
        Command::SetLevel { id, level } => (17, with_level(*id, level)),
        Command::Overdue => (18, nothing()),
        Command::Workload => (19, nothing()),
    }
}

/// The texts of a command that has many.
pub(crate) fn many_of(command: &Command) -> &[Text]
    ensures { result.now ≡ spec.many_of command.entry.now }
{
    match command {
        Command::Create { requestors, .. } => requestors.as_slice(),
        _ => &[],
    }
}

/// Arguments of which none is seen.
fn nothing<'c>() -> Arguments<'c>
    ensures { result.delete ≡ false }
{
    Arguments {
        id: 0,
        other: 0,
        queue: "",
        text: "",
        maybe: None,
        role: WatchRole::Requestor,
        link: NamedKind::Plain(LinkKind::DependsOn),
        delete: false,
    }
}

fn of_queue(queue: &Text) -> Arguments<'_>
    ensures queue { result.queue.now ≡ queue.entry.now }
    ensures plain { result.delete ≡ false }
{
    Arguments {
        queue: queue.as_str(),
        ..nothing()
    }
}

fn in_queue<'c>(queue: &'c Text, text: &'c Text, maybe: &'c Option<Text>) -> Arguments<'c>
    ensures queue { result.queue.now ≡ queue.entry.now }
    ensures text { result.text.now ≡ text.entry.now }
    ensures maybe { option_map (λ t. t.now) result.maybe ≡ maybe.entry.now }
    ensures plain { result.delete ≡ false }
{
    Arguments {
        text: text.as_str(),
        maybe: lent(maybe),
        ..of_queue(queue)
    }
}

fn on_request<'c>(id: u32) -> Arguments<'c>
    ensures id { result.id ≡ id }
    ensures plain { result.delete ≡ false }
{
    Arguments { id, ..nothing() }
}

fn with_text(id: u32, text: &Text) -> Arguments<'_>
    ensures id { result.id ≡ id }
    ensures text { result.text.now ≡ text.entry.now }
    ensures plain { result.delete ≡ false }
{
    Arguments {
        text: text.as_str(),
        ..on_request(id)
    }
}

fn with_role(id: u32, role: WatchRole, person: &Text) -> Arguments<'_>
    ensures id { result.id ≡ id }
    ensures role { result.role ≡ role }
    ensures text { result.text.now ≡ person.entry.now }
    ensures plain { result.delete ≡ false }
{
    Arguments {
        role,
        ..with_text(id, person)
    }
}

fn with_link<'c>(id: u32, kind: LinkKind, other: u32) -> Arguments<'c>
    ensures id { result.id ≡ id }
    ensures link { result.link ≡ Plain kind }
    ensures other { result.other ≡ other }
    ensures plain { result.delete ≡ false }
{
    Arguments {
        link: NamedKind::Plain(kind),
        other,
        ..on_request(id)
    }
}

fn with_level(id: u32, level: &Option<Text>) -> Arguments<'_>
    ensures id { result.id ≡ id }
    ensures maybe { option_map (λ t. t.now) result.maybe ≡ level.entry.now }
    ensures plain { result.delete ≡ false }
{
    Arguments {
        maybe: lent(level),
        ..on_request(id)
    }
}

fn lent(text: &Option<Text>) -> Option<&str>
    ensures { option_map (λ t. t.now) result ≡ text.entry.now }
{
    match text {
        Some(text) => Some(text.as_str()),
        None => None,
    }
}

/// The word of a role.
pub(crate) fn role_name(role: WatchRole) -> &'static str
    ensures { result.now ≡ spec.role_name role }
{
    match role {
        WatchRole::Requestor => "requestor",
        WatchRole::Cc => "cc",
        WatchRole::AdminCc => "admincc",
    }
}

/// The word of a kind of link, or of its inverse.
pub(crate) fn link_name(kind: NamedKind) -> &'static str
    ensures { result.now ≡ spec.link_name kind }
{
    match kind {
        NamedKind::Plain(LinkKind::DependsOn) => "DependsOn",
        NamedKind::Plain(LinkKind::MemberOf) => "MemberOf",
        NamedKind::Plain(LinkKind::RefersTo) => "RefersTo",
        NamedKind::Inverse(LinkKind::DependsOn) => "DependedOnBy",
        NamedKind::Inverse(LinkKind::MemberOf) => "HasMember",
        NamedKind::Inverse(LinkKind::RefersTo) => "ReferredToBy",
    }
}
