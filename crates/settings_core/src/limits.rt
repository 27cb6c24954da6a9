//! The limits of a settings text.

ghost use Rattle.std.specs.Prelude.{◌≡◌};
ghost use Rattle.toml.specs.View.{view, table_view};
ghost use Rattle.std.specs.Option.{option_copied, option_map};
ghost use Rattle.settings_parts.specs.Values.{members_of};
ghost use Rattle.settings_core.specs.Limits as limits;
ghost use Rattle.settings_core.specs.Reading as spec;

use settings_parts::level::{has_limit_at, is_from_one, number_up_to};
use settings_parts::values::{integer_at, table_at, table_of};
use toml::{Table, Value};

/// The most requests that settings may allow, and how many they allow without a text.
pub const MAX_REQUESTS: u32 = 1_000_000;

/// The most entries in a request's history that settings may allow, and how many they allow without
/// a text.
pub const MAX_ENTRIES: u32 = 10_000;

/// The number at a key, from 1 to the most, or the most where it is absent.
pub fn count_at(table: &Table, key: &str, most: u32) -> u32
    ensures { result ≡ spec.count_at key.now most (table_view table.now) }
{
    match integer_at(table, key) {
        Some(number) => number_up_to(most, number),
        None => most,
    }
}

/// Whether the number at a key, if there is one, is from 1 to the most.
fn is_count_at(table: &Table, key: &str, most: u32) -> bool
    ensures { result ≡ spec.is_count_at key.now most (table_view table.now) }
{
    match integer_at(table, key) {
        Some(number) => is_from_one(most, number),
        None => true,
    }
}

/// Whether the limits of levels, of requests and of entries are within their bounds.
pub fn has_limits(table: &Table) -> bool
    ensures { result ≡ spec.has_limits (table_view table.now) }
{
    bad_limit(table).is_none() && bad_count(table).is_none()
}

/// The first limit of a level that has both units or isn't from 1 to 525,600 minutes: the name of
/// the level, and the limit's key.
pub fn bad_limit(table: &Table) -> Option<(&str, &'static str)>
    ensures { option_map (λ f. (f.0.now, f.1.now)) result ≡ limits.bad_limit (table_view table.now) }
{
    match table_at(table, "level") {
        Some(levels) => bad_limit_in(levels),
        None => None,
    }
}

fn bad_limit_in(levels: &Table) -> Option<(&str, &'static str)>
    ensures { option_map (λ f. (f.0.now, f.1.now)) result
        ≡ limits.bad_limit_in (table_view levels.now) }
{
    for (name, value) in levels.iter() {
        if let Some(key) = bad_limit_of(value) {
            return Some((name.as_str(), key));
        }
    }
    None
}

fn bad_limit_of(level: &Value) -> Option<&'static str>
    ensures { option_copied result ≡ limits.bad_key (members_of (view level.now)) }
{
    match table_of(level) {
        Some(table) => bad_key(table),
        None => None,
    }
}

/// The key of the first limit of a level that is out of its bounds.
fn bad_key(level: &Table) -> Option<&'static str>
    ensures { option_copied result ≡ limits.bad_key (table_view level.now) }
{
    if !has_limit_at(level, "response") {
        Some("response")
    } else if !has_limit_at(level, "keep_in_loop") {
        Some("keep_in_loop")
    } else if !has_limit_at(level, "resolve") {
        Some("resolve")
    } else {
        None
    }
}

/// Which of `max_requests` and `max_entries` is the first that is out of its bounds.
pub fn bad_count(table: &Table) -> Option<&'static str>
    ensures { option_copied result ≡ limits.bad_count (table_view table.now) }
{
    if !is_count_at(table, "max_requests", MAX_REQUESTS) {
        Some("max_requests")
    } else if !is_count_at(table, "max_entries", MAX_ENTRIES) {
        Some("max_entries")
    } else {
        None
    }
}
