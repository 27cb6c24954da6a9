//! The tables of settings, their keys, and what stands at each.

ghost use Rattle.std.specs.Prelude.{◌≡◌, map};
ghost use Rattle.std.specs.Str.{bytes_eq};
ghost use Rattle.settings_form.specs.Form as form;

use self::Item::{Boolean, Integer, Pair, Table, Text};
use self::Kind::{Many, One};

/// A table of a settings text.
#[derive(Clone, Copy)]
pub enum Place {
    Top,
    Groups,
    Grant,
    Tokens,
    Lifecycles,
    Lifecycle,
    Transitions,
    RightNames,
    Calendars,
    Calendar,
    Levels,
    Level,
    Limit,
}

/// A form that a text may have to have.
#[derive(Clone, Copy)]
pub enum TextForm {
    Any,
    Name,
    To,
    RightKey,
    Day,
    Interval,
}

/// One value.
#[derive(Clone, Copy)]
pub enum Item {
    Integer,
    Boolean,
    Text(TextForm),
    /// A list of two integers.
    Pair,
    Table(Place),
}

/// What stands at a key: one value, or a list of any number of them.
#[derive(Clone, Copy)]
pub enum Kind {
    One(Item),
    Many(Item),
}

/// A key of a table.
pub struct Row {
    pub key: &'static str,
    /// Whether the table must have the key.
    pub is_required: bool,
    /// What stands at the key.
    pub kind: Kind,
}

/// The keys of a table.
#[derive(Clone, Copy)]
pub enum Keys {
    /// These alone.
    Listed(&'static [Row]),
    /// These alone, and at least one of them.
    OneOf(&'static [Row]),
    /// Any keys of a form, with one kind of value.
    Free(TextForm, Kind),
}

/// A key that the table must have.
macro_rules! must {
    ($key:expr, $kind:expr) => {
        Row {
            key: $key,
            is_required: true,
            kind: $kind,
        }
    };
}

/// A key that the table may have.
macro_rules! may {
    ($key:expr, $kind:expr) => {
        Row {
            key: $key,
            is_required: false,
            kind: $kind,
        }
    };
}

static TOP: [Row; 9] = [
    may!("max_requests", One(Integer)),
    may!("max_entries", One(Integer)),
    may!("persons", Many(Text(TextForm::Any))),
    may!("groups", One(Table(Place::Groups))),
    may!("grant", Many(Table(Place::Grant))),
    may!("tokens", One(Table(Place::Tokens))),
    may!("lifecycle", One(Table(Place::Lifecycles))),
    may!("calendar", One(Table(Place::Calendars))),
    may!("level", One(Table(Place::Levels))),
];

static GRANT: [Row; 3] = [
    must!("to", One(Text(TextForm::To))),
    must!("rights", Many(Text(TextForm::Any))),
    may!("queue", One(Text(TextForm::Any))),
];

static LIFECYCLE: [Row; 7] = [
    must!("initial", Many(Text(TextForm::Any))),
    must!("active", Many(Text(TextForm::Any))),
    must!("create", Many(Text(TextForm::Any))),
    must!("on_create", One(Text(TextForm::Any))),
    may!("inactive", Many(Text(TextForm::Any))),
    may!("transitions", One(Table(Place::Transitions))),
    may!("rights", One(Table(Place::RightNames))),
];

static CALENDAR: [Row; 12] = [
    may!("years", One(Pair)),
    may!("offset", One(Integer)),
    may!("changes", Many(Pair)),
    may!("rule", One(Text(TextForm::Any))),
    may!("holidays", Many(Text(TextForm::Day))),
    may!("sun", Many(Text(TextForm::Interval))),
    may!("mon", Many(Text(TextForm::Interval))),
    may!("tue", Many(Text(TextForm::Interval))),
    may!("wed", Many(Text(TextForm::Interval))),
    may!("thu", Many(Text(TextForm::Interval))),
    may!("fri", Many(Text(TextForm::Interval))),
    may!("sat", Many(Text(TextForm::Interval))),
];

static LEVEL: [Row; 6] = [
    must!("calendar", One(Text(TextForm::Any))),
    may!("start_immediately", One(Boolean)),
    may!("response", One(Table(Place::Limit))),
    may!("keep_in_loop", One(Table(Place::Limit))),
    may!("resolve", One(Table(Place::Limit))),
    may!("ignore", Many(Text(TextForm::Any))),
];

static LIMIT: [Row; 2] = [
    may!("real_minutes", One(Integer)),
    may!("business_minutes", One(Integer)),
];

/// The keys of a table.
pub fn keys_at(place: Place) -> Keys
    ensures { form.keys_of result ≡ form.keys place }
{
    match place {
        Place::Top => Keys::Listed(&TOP),
        Place::Groups => Keys::Free(TextForm::Any, Many(Text(TextForm::Any))),
        Place::Grant => Keys::Listed(&GRANT),
        Place::Tokens => Keys::Free(TextForm::Any, One(Text(TextForm::Any))),
        Place::Lifecycles => Keys::Free(TextForm::Name, One(Table(Place::Lifecycle))),
        Place::Lifecycle => Keys::Listed(&LIFECYCLE),
        Place::Transitions => Keys::Free(TextForm::Any, Many(Text(TextForm::Any))),
        Place::RightNames => Keys::Free(TextForm::RightKey, One(Text(TextForm::Any))),
        Place::Calendars => Keys::Free(TextForm::Name, One(Table(Place::Calendar))),
        Place::Calendar => Keys::Listed(&CALENDAR),
        Place::Levels => Keys::Free(TextForm::Name, One(Table(Place::Level))),
        Place::Level => Keys::Listed(&LEVEL),
        Place::Limit => Keys::OneOf(&LIMIT),
    }
}

/// What stands at a key of the rows.
fn kind_in(rows: &[Row], key: &str) -> Option<Kind>
    ensures { result ≡ form.kind_in (map form.field_of rows.now) key.now }
{
    for row in rows {
        if key == row.key {
            return Some(row.kind);
        }
    }
    None
}

/// What stands at a key of a table.
pub fn kind_of(place: Place, key: &str) -> Option<Kind>
    ensures { result ≡ form.kind_of place key.now }
{
    match keys_at(place) {
        Keys::Listed(rows) => kind_in(rows, key),
        Keys::OneOf(rows) => kind_in(rows, key),
        Keys::Free(_, kind) => Some(kind),
    }
}
