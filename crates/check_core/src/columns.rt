//! The tables whose rows are tested before settings are attached, their statements and their columns.

ghost use Rattle.std.specs.Prelude.{◌≡◌, map};
ghost use Rattle.check_core.specs.Columns as spec;

/// A table whose rows are tested.
#[derive(Clone, Copy)]
pub enum Table {
    Request,
    Queue,
    Stay,
    Link,
    Entry,
    Watcher,
}

/// A version of the tables.
#[derive(Clone, Copy)]
pub enum Version {
    /// Version 1, which has no stays.
    First,
    /// Version 2.
    Present,
}

static FIRST_TABLES: [Table; 5] = [
    Table::Request,
    Table::Queue,
    Table::Link,
    Table::Entry,
    Table::Watcher,
];

static PRESENT_TABLES: [Table; 6] = [
    Table::Request,
    Table::Queue,
    Table::Stay,
    Table::Link,
    Table::Entry,
    Table::Watcher,
];

/// What stands in a column.
#[derive(Clone, Copy)]
pub enum Kind {
    Text,
    TextOrNone,
    /// A minute of the years 2000 to 2099, or the end of the last.
    Minute,
    MinuteOrNone,
    /// A whole number from the first to the second.
    Number(u32, u32),
}

/// Any number.
const COUNT: Kind = Kind::Number(0, 4_294_967_295);

static REQUEST: [Kind; 11] = [
    COUNT,
    Kind::Text,
    Kind::Text,
    Kind::Text,
    Kind::TextOrNone,
    Kind::TextOrNone,
    Kind::Minute,
    Kind::Minute,
    Kind::Number(0, 1),
    Kind::Minute,
    Kind::MinuteOrNone,
];

static QUEUE: [Kind; 3] = [Kind::Text, Kind::Text, Kind::TextOrNone];

static STAY: [Kind; 5] = [COUNT, COUNT, Kind::Text, Kind::Minute, Kind::MinuteOrNone];

static LINK: [Kind; 3] = [COUNT, Kind::Number(1, 3), COUNT];

static ENTRY: [Kind; 5] = [COUNT, COUNT, Kind::Minute, Kind::Text, Kind::Number(1, 10)];

static WATCHER: [Kind; 3] = [COUNT, Kind::Number(1, 3), Kind::Text];

/// The tables of a version, in the order in which they are tested.
pub fn tables_of(version: Version) -> &'static [Table]
    ensures { result.now ≡ spec.tables_of version }
{
    match version {
        Version::First => &FIRST_TABLES,
        Version::Present => &PRESENT_TABLES,
    }
}

const REQUEST_ROWS: &str =
    "SELECT id, queue, subject, status, owner, level, created, opened, turn, \
    since, due FROM request ORDER BY id";

const QUEUE_ROWS: &str = "SELECT name, lifecycle, level FROM queue ORDER BY name";

const STAY_ROWS: &str =
    "SELECT request, number, status, begun, ended FROM stay ORDER BY request, number";

const LINK_ROWS: &str = "SELECT source, kind, target FROM link ORDER BY source, kind, target";

const ENTRY_ROWS: &str =
    "SELECT request, number, moment, actor, kind FROM entry ORDER BY request, number";

const WATCHER_ROWS: &str =
    "SELECT request, role, person FROM watcher ORDER BY request, role, person";

/// The statement that reads the columns of a table that are tested, by its key.
pub fn statement_of(table: Table) -> &'static str
    ensures { result.now ≡ spec.statement_of table }
{
    match table {
        Table::Request => REQUEST_ROWS,
        Table::Queue => QUEUE_ROWS,
        Table::Stay => STAY_ROWS,
        Table::Link => LINK_ROWS,
        Table::Entry => ENTRY_ROWS,
        Table::Watcher => WATCHER_ROWS,
    }
}

/// What stands in each of these columns.
pub fn kinds_of(table: Table) -> &'static [Kind]
    ensures { result.now ≡ spec.kinds_of table }
{
    match table {
        Table::Request => &REQUEST,
        Table::Queue => &QUEUE,
        Table::Stay => &STAY,
        Table::Link => &LINK,
        Table::Entry => &ENTRY,
        Table::Watcher => &WATCHER,
    }
}

static REQUEST_NAMES: [&str; 11] = [
    "id", "queue", "subject", "status", "owner", "level", "created", "opened", "turn", "since",
    "due",
];

static QUEUE_NAMES: [&str; 3] = ["name", "lifecycle", "level"];

static STAY_NAMES: [&str; 5] = ["request", "number", "status", "begun", "ended"];

static LINK_NAMES: [&str; 3] = ["source", "kind", "target"];

static ENTRY_NAMES: [&str; 5] = ["request", "number", "moment", "actor", "kind"];

static WATCHER_NAMES: [&str; 3] = ["request", "role", "person"];

/// The names of these columns; those of the key come first.
pub fn names_of(table: Table) -> &'static [&'static str]
    ensures { map (λ name. name.now) result.now ≡ spec.names_of table }
{
    match table {
        Table::Request => &REQUEST_NAMES,
        Table::Queue => &QUEUE_NAMES,
        Table::Stay => &STAY_NAMES,
        Table::Link => &LINK_NAMES,
        Table::Entry => &ENTRY_NAMES,
        Table::Watcher => &WATCHER_NAMES,
    }
}
