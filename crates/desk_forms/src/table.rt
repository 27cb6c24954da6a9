//! The table of commands: what each is given, the words and the paths that ask for it, and the
//! command that its values make.

ghost use Rattle.std.specs.Prelude.{◌≡◌, map, IfOk};
ghost use Rattle.std.specs.Option.{option_map};
ghost use Rattle.desk_forms.specs.Kinds.{argument_of};
ghost use Rattle.desk_forms.specs.Paths.{path_of};
ghost use Rattle.desk_forms.specs.Table as table;
ghost use Rattle.desk_forms.specs.Arguments.{values_of};
ghost use Rattle.desk_forms.specs.Words.{word_of};

use crate::arguments::{Arguments, copied, copies};
use crate::kinds::Arg;
use crate::kinds::Kind::{Flag, Id, Link, Many, Maybe, Named, Other, Queue, Role, Text as Words};
use crate::links::linking;
use crate::paths::Method::{Get, Post};
use crate::paths::{Part, Path};
use crate::words::Word;
use desk_model::Command;
use std::alloc::{AllocError, Global};
use text_core::Text;

/// The form of a command.
#[derive(Clone, Copy)]
pub enum CommandForm {
    OpenQueue,
    Create,
    SetStatus,
    /// To set the status `resolved`.
    Resolve,
    SetLevel,
    Take,
    Steal,
    Untake,
    Give,
    Watch,
    Unwatch,
    Reply,
    Comment,
    /// To link, or where its flag is set to unlink.
    Link,
    Unlink,
    Queues,
    Show,
    List,
    History,
    Overdue,
    Workload,
}

static NOTHING: [Arg; 0] = [];

static ID: [Arg; 1] = [Arg("id", Id)];

static QUEUE: [Arg; 1] = [Arg("queue", Queue)];

static OPEN_QUEUE: [Arg; 3] = [
    Arg("queue", Queue),
    Arg("lifecycle", Words),
    Arg("level", Maybe),
];

static CREATE: [Arg; 4] = [
    Arg("queue", Queue),
    Arg("subject", Words),
    Arg("requestors", Many),
    Arg("status", Named),
];

static ID_STATUS: [Arg; 2] = [Arg("id", Id), Arg("status", Words)];

static ID_LEVEL: [Arg; 2] = [Arg("id", Id), Arg("level", Maybe)];

static ID_PERSON: [Arg; 2] = [Arg("id", Id), Arg("person", Words)];

static ID_TEXT: [Arg; 2] = [Arg("id", Id), Arg("text", Words)];

static ID_ROLE_PERSON: [Arg; 3] = [Arg("id", Id), Arg("role", Role), Arg("person", Words)];

static LINK: [Arg; 4] = [
    Arg("id", Id),
    Arg("kind", Link),
    Arg("other", Other),
    Arg("delete", Flag('d')),
];

/// What a command of the form is given, in order.
pub fn args_of(of: CommandForm) -> &'static [Arg]
    ensures { map argument_of result.now ≡ table.arguments of }
{
    match of {
        CommandForm::OpenQueue => &OPEN_QUEUE,
        CommandForm::Create => &CREATE,
        CommandForm::SetStatus => &ID_STATUS,
        CommandForm::Resolve => &ID,
        CommandForm::SetLevel => &ID_LEVEL,
        CommandForm::Take => &ID,
        CommandForm::Steal => &ID,
        CommandForm::Untake => &ID,
        CommandForm::Give => &ID_PERSON,
        CommandForm::Watch => &ID_ROLE_PERSON,
        CommandForm::Unwatch => &ID_ROLE_PERSON,
        CommandForm::Reply => &ID_TEXT,
        CommandForm::Comment => &ID_TEXT,
        CommandForm::Link => &LINK,
        CommandForm::Unlink => &LINK,
        CommandForm::Queues => &NOTHING,
        CommandForm::Show => &ID,
        CommandForm::List => &QUEUE,
        CommandForm::History => &ID,
        CommandForm::Overdue => &NOTHING,
        CommandForm::Workload => &NOTHING,
    }
}

static WORDS: [Word; 20] = [
    Word("queue", CommandForm::OpenQueue),
    Word("create", CommandForm::Create),
    Word("status", CommandForm::SetStatus),
    Word("resolve", CommandForm::Resolve),
    Word("level", CommandForm::SetLevel),
    Word("take", CommandForm::Take),
    Word("steal", CommandForm::Steal),
    Word("untake", CommandForm::Untake),
    Word("give", CommandForm::Give),
    Word("watch", CommandForm::Watch),
    Word("unwatch", CommandForm::Unwatch),
    Word("correspond", CommandForm::Reply),
    Word("comment", CommandForm::Comment),
    Word("link", CommandForm::Link),
    Word("queues", CommandForm::Queues),
    Word("show", CommandForm::Show),
    Word("ls", CommandForm::List),
    Word("history", CommandForm::History),
    Word("overdue", CommandForm::Overdue),
    Word("workload", CommandForm::Workload),
];

/// All words, in order.
#[tactic(auto, unfolding(crate::specs::Table::words))]
pub fn words() -> &'static [Word]
    ensures { map word_of result.now ≡ table.words }
{
    &WORDS
}

static PATHS: [Path; 20] = [
    Path(Get, &[Part::Lit("queues")], CommandForm::Queues),
    Path(Post, &[Part::Lit("queues")], CommandForm::OpenQueue),
    Path(
        Get,
        &[Part::Lit("queues"), Part::Queue, Part::Lit("requests")],
        CommandForm::List,
    ),
    Path(
        Post,
        &[Part::Lit("queues"), Part::Queue, Part::Lit("requests")],
        CommandForm::Create,
    ),
    Path(Get, &[Part::Lit("requests"), Part::Id], CommandForm::Show),
    Path(
        Get,
        &[Part::Lit("requests"), Part::Id, Part::Lit("history")],
        CommandForm::History,
    ),
    Path(
        Post,
        &[Part::Lit("requests"), Part::Id, Part::Lit("status")],
        CommandForm::SetStatus,
    ),
    Path(
        Post,
        &[Part::Lit("requests"), Part::Id, Part::Lit("take")],
        CommandForm::Take,
    ),
    Path(
        Post,
        &[Part::Lit("requests"), Part::Id, Part::Lit("steal")],
        CommandForm::Steal,
    ),
    Path(
        Post,
        &[Part::Lit("requests"), Part::Id, Part::Lit("untake")],
        CommandForm::Untake,
    ),
    Path(
        Post,
        &[Part::Lit("requests"), Part::Id, Part::Lit("give")],
        CommandForm::Give,
    ),
    Path(
        Post,
        &[Part::Lit("requests"), Part::Id, Part::Lit("reply")],
        CommandForm::Reply,
    ),
    Path(
        Post,
        &[Part::Lit("requests"), Part::Id, Part::Lit("comment")],
        CommandForm::Comment,
    ),
    Path(
        Post,
        &[Part::Lit("requests"), Part::Id, Part::Lit("watch")],
        CommandForm::Watch,
    ),
    Path(
        Post,
        &[Part::Lit("requests"), Part::Id, Part::Lit("unwatch")],
        CommandForm::Unwatch,
    ),
    Path(
        Post,
        &[Part::Lit("requests"), Part::Id, Part::Lit("link")],
        CommandForm::Link,
    ),
    Path(
        Post,
        &[Part::Lit("requests"), Part::Id, Part::Lit("unlink")],
        CommandForm::Unlink,
    ),
    Path(
        Post,
        &[Part::Lit("requests"), Part::Id, Part::Lit("level")],
        CommandForm::SetLevel,
    ),
    Path(Get, &[Part::Lit("overdue")], CommandForm::Overdue),
    Path(Get, &[Part::Lit("workload")], CommandForm::Workload),
];

/// All paths, in order.
#[tactic(auto, unfolding(crate::specs::Table::paths))]
pub fn paths() -> &'static [Path]
    ensures { map path_of result.now ≡ table.paths }
{
    &PATHS
}

/// The command that values make, of copies of their texts.
pub(crate) fn build_command(
    alloc: Global,
    of: CommandForm,
    v: &Arguments<'_>,
    many: &[Text],
) -> Result<Command, AllocError>
    ensures { IfOk result (λ c. c ≡ table.build_command of (values_of v.now) many.now) }
{
    match of {
        CommandForm::OpenQueue => Ok(Command::OpenQueue {
            queue: Text::new(alloc, v.queue)?,
            lifecycle: Text::new(alloc, v.text)?,
            level: copied(alloc, v.maybe)?,
        }),
        CommandForm::Create => create(alloc, v, many),
        CommandForm::SetStatus => Ok(Command::SetStatus {
            id: v.id,
            status: Text::new(alloc, v.text)?,
        }),
        CommandForm::Resolve => Ok(Command::SetStatus {
            id: v.id,
            status: Text::new(alloc, "resolved")?,
        }),
        CommandForm::SetLevel => Ok(Command::SetLevel {
            id: v.id,
            level: copied(alloc, v.maybe)?,
        }),
        CommandForm::Take => Ok(Command::Take { id: v.id }),
        CommandForm::Steal => Ok(Command::Steal { id: v.id }),
        CommandForm::Untake => Ok(Command::Untake { id: v.id }),
        CommandForm::Give => Ok(Command::Give {
            id: v.id,
            person: Text::new(alloc, v.text)?,
        }),
        CommandForm::Watch => Ok(Command::Watch {
            id: v.id,
            role: v.role,
            person: Text::new(alloc, v.text)?,
        }),
        CommandForm::Unwatch => Ok(Command::Unwatch {
            id: v.id,
            role: v.role,
            person: Text::new(alloc, v.text)?,
        }),
        CommandForm::Reply => Ok(Command::Reply {
            id: v.id,
            text: Text::new(alloc, v.text)?,
        }),
        CommandForm::Comment => Ok(Command::Comment {
            id: v.id,
            text: Text::new(alloc, v.text)?,
        }),
        CommandForm::Link => Ok(linking(v.delete, v.id, v.link, v.other)),
        CommandForm::Unlink => Ok(linking(true, v.id, v.link, v.other)),
        CommandForm::Queues => Ok(Command::Queues),
        CommandForm::Show => Ok(Command::Show { id: v.id }),
        CommandForm::List => Ok(Command::List {
            queue: Text::new(alloc, v.queue)?,
        }),
        CommandForm::History => Ok(Command::History { id: v.id }),
        CommandForm::Overdue => Ok(Command::Overdue),
        CommandForm::Workload => Ok(Command::Workload),
    }
}

fn create(alloc: Global, v: &Arguments<'_>, many: &[Text]) -> Result<Command, AllocError>
    ensures { IfOk result (λ c.
        c ≡ Command.Create v.now.queue.now v.now.text.now
        (option_map (λ t. t.now) v.now.maybe) many.now) }
{
    Ok(Command::Create {
        queue: Text::new(alloc, v.queue)?,
        subject: Text::new(alloc, v.text)?,
        status: copied(alloc, v.maybe)?,
        requestors: copies(alloc, many)?,
    })
}
