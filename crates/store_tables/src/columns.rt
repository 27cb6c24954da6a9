//! Values of the desk as values of SQL, and back.
ghost use Rattle.std.specs.Prelude.{◌≡◌, ◌≢◌, ◌<◌, length, IfOk, IfErr};
ghost use Rattle.sqlite.specs.Order.{column as value_at};
ghost use Rattle.sqlite.specs.Values.{or_null, bound_value};
ghost use Rattle.sqlite_value.specs.Value.{owned};
ghost use Rattle.sqlite.specs.declared.types.Value.TheVariants.{Int, Text as Words};
ghost use Rattle.desk_model.specs.Links.{kind_number};
ghost use Rattle.store_tables.specs.Contents.Entry.{IsEntryKind, entry_kind_number};
ghost use Rattle.store_tables.specs.Contents.Link.{IsLinkKind};
ghost use Rattle.store_tables.specs.Contents.Request.{IsTurn, turn_number};
ghost use Rattle.store_tables.specs.Contents.Watcher.{IsRole, role_number};
ghost use Rattle.store_tables.specs.Values.{IsCount, IsMinute, IsMinuteOrNull, IsText, IsWhole};
ghost use Rattle.store_tables.specs.Values.{IsTextOrNull, MismatchesAt, NeedsAt, ReadsAt};
ghost use Rattle.store_tables.specs.Values.{count_value};
ghost use Rattle.store_tables.specs.declared.fault.StoreFault.{StoreFault};

use crate::fault::StoreFault;
use desk_model::{EntryKind, LinkKind, Turn, WatchRole};
use hours_core::Minute;
use sqlite::types::{FromSql, ToSql, ValueRef};
use sqlite::{Error, ErrorCode, Row};
use text_core::Text;

/// A text, to be bound.
pub(crate) fn words(text: &Text) -> ValueRef<'_>
    ensures bound { bound_value (owned result) ≡ Words text.now }
    ensures value { IsText (Words text.now) }
{
    text.as_str().to_sql()
}

/// A name, to be bound.
pub(crate) fn name(text: &str) -> ValueRef<'_>
    ensures bound { bound_value (owned result) ≡ Words text.now }
{
    text.to_sql()
}

/// A text that may be absent, to be bound.
pub(crate) fn nullable(text: &Option<Text>) -> ValueRef<'_>
    ensures bound { bound_value (owned result) ≡ or_null Words text.now }
    ensures value { IsTextOrNull (or_null Words text.now) }
{
    match text {
        Some(text) => text.as_str().to_sql(),
        None => ValueRef::Null,
    }
}

/// A number, to be bound.
pub(crate) fn number<'a>(n: u32) -> ValueRef<'a>
    ensures bound { bound_value (owned result) ≡ count_value n }
    ensures value { IsCount (count_value n) }
{
    n.to_sql()
}

/// A minute, to be bound.
pub(crate) fn minute<'a>(minute: Minute) -> ValueRef<'a>
    ensures bound { bound_value (owned result) ≡ count_value minute }
    ensures value { IsMinute (count_value minute) }
{
    minute.get().to_sql()
}

/// A minute that may be absent, to be bound.
pub(crate) fn nullable_minute<'a>(minute: Option<Minute>) -> ValueRef<'a>
    ensures bound { bound_value (owned result) ≡ or_null count_value minute }
    ensures value { IsMinuteOrNull (or_null count_value minute) }
{
    match minute {
        Some(minute) => minute.get().to_sql(),
        None => ValueRef::Null,
    }
}

/// The value in a column.
fn column<T: FromSql>(row: &Row, at: usize) -> Result<T, StoreFault>
    ensures ok { IfOk result (λ x. T.FromSql.reads_as (value_at row.now at) x) }
    ensures wide { IfOk result (λ x. at < length row.now) }
    ensures mismatch { IfErr result (λ e. e ≡ StoreFault.Mismatch → at < length row.now →
        ¬ T.FromSql.is_readable (value_at row.now at)) }
    ensures fault { IfErr result (λ e. e ≢ StoreFault.WrongVersion) }
{
    match row.get(at) {
        Ok(value) => Ok(value),
        Err(Error::SqliteFailure(ErrorCode::OutOfMemory)) => Err(StoreFault::Refused),
        Err(_) => Err(StoreFault::Mismatch),
    }
}

/// The text in a column.
pub(crate) fn text_at(row: &Row, at: usize) -> Result<Text, StoreFault>
    ensures ok { ReadsAt Words row.now at result }
    ensures value { NeedsAt IsText row.now at result }
    ensures mismatch { MismatchesAt IsText row.now at result }
    ensures fault { IfErr result (λ e. e ≢ StoreFault.WrongVersion) }
{
    let text: String = column(row, at)?;
    Ok(Text::from(text))
}

/// The text in a column, or none.
pub(crate) fn nullable_at(row: &Row, at: usize) -> Result<Option<Text>, StoreFault>
    ensures ok { ReadsAt (or_null Words) row.now at result }
    ensures value { NeedsAt IsTextOrNull row.now at result }
    ensures mismatch { MismatchesAt IsTextOrNull row.now at result }
    ensures fault { IfErr result (λ e. e ≢ StoreFault.WrongVersion) }
{
    let text: Option<String> = column(row, at)?;
    match text {
        Some(text) => Ok(Some(Text::from(text))),
        None => Ok(None),
    }
}

/// The number in a column.
pub(crate) fn number_at(row: &Row, at: usize) -> Result<u32, StoreFault>
    ensures ok { ReadsAt count_value row.now at result }
    ensures value { NeedsAt IsCount row.now at result }
    ensures mismatch { MismatchesAt IsCount row.now at result }
    ensures fault { IfErr result (λ e. e ≢ StoreFault.WrongVersion) }
{
    column(row, at)
}

/// The whole number in a column.
pub(crate) fn whole_at(row: &Row, at: usize) -> Result<i64, StoreFault>
    ensures ok { ReadsAt Int row.now at result }
    ensures value { NeedsAt IsWhole row.now at result }
    ensures mismatch { MismatchesAt IsWhole row.now at result }
    ensures fault { IfErr result (λ e. e ≢ StoreFault.WrongVersion) }
{
    column(row, at)
}

/// The minute in a column.
pub(crate) fn minute_at(row: &Row, at: usize) -> Result<Minute, StoreFault>
    ensures ok { ReadsAt count_value row.now at result }
    ensures value { NeedsAt IsMinute row.now at result }
    ensures mismatch { MismatchesAt IsMinute row.now at result }
    ensures fault { IfErr result (λ e. e ≢ StoreFault.WrongVersion) }
{
    let n = number_at(row, at)?;
    match Minute::new(n) {
        Some(minute) => Ok(minute),
        None => Err(StoreFault::Mismatch),
    }
}

/// The minute in a column, or none.
pub(crate) fn nullable_minute_at(row: &Row, at: usize) -> Result<Option<Minute>, StoreFault>
    ensures ok { ReadsAt (or_null count_value) row.now at result }
    ensures value { NeedsAt IsMinuteOrNull row.now at result }
    ensures mismatch { MismatchesAt IsMinuteOrNull row.now at result }
    ensures fault { IfErr result (λ e. e ≢ StoreFault.WrongVersion) }
{
    let number: Option<u32> = column(row, at)?;
    let Some(n) = number else {
        return Ok(None);
    };
    match Minute::new(n) {
        Some(minute) => Ok(Some(minute)),
        None => Err(StoreFault::Mismatch),
    }
}
