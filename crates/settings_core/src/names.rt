//! Whether the names of a settings text are known.

ghost use Rattle.std.specs.Prelude.{◌≡◌, ◌||◌, IfOk, find, is_some, not};
ghost use Rattle.std.specs.HashSet.{contains_text};
ghost use Rattle.std.specs.List.{position};
ghost use Rattle.std.specs.Option.{option_copied};
ghost use Rattle.toml.specs.View.{table_view};
ghost use Rattle.rights_core.specs.People.{knows};
ghost use Rattle.rights_core.specs.Right.{standard_rights};
ghost use Rattle.text_core.specs.Texts.{is_among};
ghost use Rattle.settings_core.specs.Names as spec;

use crate::known::{Names, rights_of, statuses_of};
use crate::named::{Named, STANDARD};
use hours_core::Level;
use lifecycle_core::Lifecycle;
use rights_core::{Grant, People, right};
use settings_parts::people::Token;
use settings_parts::values::{has_key, table_at};
use std::alloc::{AllocError, Global};
use text_core::Text;
use toml::Table;

/// Whether each granted right is standard or named in the rights of a lifecycle.
pub fn knows_rights(
    alloc: Global,
    lifecycles: &[Named<Lifecycle>],
    grants: &[Grant],
) -> Result<bool, AllocError>
    ensures { IfOk result (λ knows. knows ≡ spec.knows_rights lifecycles.now grants.now) }
{
    Ok(unknown_right(alloc, lifecycles, grants)?.is_none())
}

/// Which grant, from 0, is the first of a right that is neither standard nor named in the rights of
/// a lifecycle.
pub fn unknown_right(
    alloc: Global,
    lifecycles: &[Named<Lifecycle>],
    grants: &[Grant],
) -> Result<Option<usize>, AllocError>
    ensures { IfOk result (λ at. at
        ≡ position (λ g. not (spec.knows_right lifecycles.now g.right)) grants.now) }
{
    let named = rights_of(alloc, lifecycles)?;
    Ok(right_beside(&named, grants))
}

/// Which grant, from 0, is the first of a right that is neither standard nor one of these.
fn right_beside(named: &Names, grants: &[Grant]) -> Option<usize>
    ensures { result ≡ position (λ g. not (is_among standard_rights g.right
        || contains_text named.now g.right)) grants.now }
{
    grants
        .iter()
        .position(|g| !is_known(named, g.right.as_str()))
}

/// Whether the right is standard or one of these.
fn is_known(named: &Names, right: &str) -> bool
    ensures { result ≡ (is_among standard_rights right.now || contains_text named.now right.now) }
{
    right::is_standard(right) || named.contains(right)
}

/// Whether the calendar of each level is one of the text's, or the calendar `default`.
pub fn knows_calendars(table: &Table, levels: &[Named<Level>]) -> bool
    ensures { result ≡ spec.knows_calendars (table_view table.now) levels.now }
{
    unknown_calendar(table, levels).is_none()
}

/// The first level whose calendar is neither one of the text's nor the calendar `default`.
pub fn unknown_calendar<'l>(table: &Table, levels: &'l [Named<Level>]) -> Option<&'l Named<Level>>
    ensures { option_copied result
        ≡ find (λ l. not (spec.knows_calendar (table_view table.now) l.value.calendar)) levels.now }
{
    levels
        .iter()
        .find(|l| !knows_calendar(table, l.value.calendar.as_str()))
}

fn knows_calendar(table: &Table, name: &str) -> bool
    ensures { result ≡ spec.knows_calendar (table_view table.now) name.now }
{
    name == STANDARD || has_calendar(table, name)
}

fn has_calendar(table: &Table, name: &str) -> bool
    ensures { result ≡ spec.has_calendar (table_view table.now) name.now }
{
    match table_at(table, "calendar") {
        Some(calendars) => has_key(calendars, name),
        None => false,
    }
}

/// Whether each status that a level ignores is one of some lifecycle.
pub fn knows_ignored(
    alloc: Global,
    lifecycles: &[Named<Lifecycle>],
    levels: &[Named<Level>],
) -> Result<bool, AllocError>
    ensures { IfOk result (λ knows. knows ≡ spec.knows_ignored lifecycles.now levels.now) }
{
    let statuses = statuses_of(alloc, lifecycles)?;
    Ok(ignoring_other(&statuses, levels).is_none())
}

/// The first level that ignores another status than these.
pub fn ignoring_other<'l>(statuses: &Names, levels: &'l [Named<Level>]) -> Option<&'l Named<Level>>
    ensures { option_copied result ≡ find
        (λ l. is_some (find (λ s. not (contains_text statuses.now s)) l.value.ignore)) levels.now }
{
    levels.iter().find(|l| other_status(statuses, l.value.ignore.as_slice()).is_some())
}

/// The first status that is none of these.
pub fn other_status<'s>(statuses: &Names, ignored: &'s [Text]) -> Option<&'s Text>
    ensures { option_copied result ≡ find (λ s. not (contains_text statuses.now s)) ignored.now }
{
    ignored.iter().find(|s| !statuses.contains(s.as_str()))
}

/// Whether the person of each token is known.
pub fn knows_persons(people: &People, tokens: &[Token]) -> bool
    ensures { result ≡ spec.knows_persons people.now tokens.now }
{
    unknown_person(people, tokens).is_none()
}

/// The first token whose person isn't known.
pub fn unknown_person<'t>(people: &People, tokens: &'t [Token]) -> Option<&'t Token>
    ensures { option_copied result ≡ find (λ t. not (knows people.now t.person)) tokens.now }
{
    tokens.iter().find(|t| !people.knows(t.person.as_str()))
}
