//! Settings: read from a text, and what they say.

ghost use Rattle.std.specs.Prelude.{◌≡◌, ◌≢◌, [], None, Some, IfOk, IfErr};
ghost use Rattle.std.specs.Option.{option_copied, option_map};
ghost use Rattle.toml.specs.View.{table_view};
ghost use Rattle.settings_core.specs.Built.{IsBuilt};
ghost use Rattle.settings_core.specs.Names.{knows_names as knows_names_in};
ghost use Rattle.settings_core.specs.Reading as spec;
ghost use Rattle.settings_core.specs.Reading.{IsSettingsOf, IsFaultOf, IsStated};
ghost use Rattle.settings_core.specs.Settings as words;
ghost use Rattle.settings_core.specs.declared.fault.SettingsFault.TheVariants.{NoMemory};

use crate::calendars::Opening;
use crate::fault::SettingsFault;
use crate::levels::levels_of;
use crate::limits::{MAX_ENTRIES, MAX_REQUESTS, count_at, has_limits};
use crate::named::Named;
use crate::names::{knows_calendars, knows_ignored, knows_persons, knows_rights};
use crate::people::people_of;
use crate::stated::stated_at;
use crate::tokens::are_tokens;
use hours_core::{Calendar, Level, Zone};
use lifecycle_core::Lifecycle;
use rights_core::People;
use settings_form::text::table_of;
use settings_parts::people::{Token, tokens_of};
use std::alloc::{AllocError, Global};
use text_core::Sequence;
use toml::Table;

/// The people, the lifecycles, the calendars with their zones, the levels, the tokens and the limits
/// of a desk.
#[derive(Drop)]
pub struct Settings {
    people: People,
    lifecycles: Sequence<Named<Lifecycle>>,
    calendars: Sequence<Named<Opening>>,
    levels: Sequence<Named<Level>>,
    tokens: Sequence<Token>,
    max_requests: u32,
    max_entries: u32,
}

impl Settings {
    /// The settings that a text states, or its fault with the least number.
    ///
    /// The inner fault of a calendar or a lifecycle is that of the first one by byte order of names
    /// that has any.
    pub fn read(alloc: Global, bytes: &[u8]) -> Result<Settings, SettingsFault>
        ensures ok { IfOk result (IsSettingsOf bytes.now) }
        ensures err { IfErr result (λ e. e ≢ NoMemory → IsFaultOf bytes.now e) }
    {
        let table = table_of(alloc, bytes)?;
        stated(alloc, &table)
    }

    /// The settings of the empty text: the person `root` with every right, the lifecycle `default`,
    /// the calendar `default`, no level, no token, and 1,000,000 requests with 10,000 entries each.
    /// The only fault is `NoMemory`.
    pub fn built_in(alloc: Global) -> Result<Settings, SettingsFault>
        ensures ok { IfOk result (IsSettingsOf []) }
        ensures err { IfErr result (λ e. e ≡ NoMemory) }
    {
        stated(alloc, &Table::new(alloc))
    }

    /// The settings of a table without a fault of form, whose names, tokens and limits may still have a
    /// fault; or the least fault of its calendars, its lifecycles and its people.
    pub fn built(alloc: Global, table: &Table) -> Result<Settings, SettingsFault>
        ensures ok { IfOk result (λ s. (spec.build_fault (table_view table.now) ≡ None)
            × IsBuilt (table_view table.now) s) }
        ensures err { IfErr result (λ e. e ≢ NoMemory
            → spec.build_fault (table_view table.now) ≡ Some e) }
    {
        let calendars = stated_at(alloc, table, "calendar")?;
        let lifecycles = stated_at(alloc, table, "lifecycle")?;
        let people = people_of(alloc, table)?;
        let levels = levels_of(alloc, table)?;
        let tokens = tokens_of(alloc, table)?;
        Ok(Settings {
            people,
            lifecycles: Sequence::from(lifecycles),
            calendars: Sequence::from(calendars),
            levels: Sequence::from(levels),
            tokens: Sequence::from(tokens),
            max_requests: count_at(table, "max_requests", MAX_REQUESTS),
            max_entries: count_at(table, "max_entries", MAX_ENTRIES),
        })
    }

    /// The persons, their groups and their rights.
    pub fn people(&self) -> &People
        ensures { result.now ≡ words.people_of self.now }
    {
        &self.people
    }

    /// The lifecycle of this name, if there is one.
    pub fn lifecycle(&self, name: &str) -> Option<&Lifecycle>
        ensures { option_map (λ l. l.now) result ≡ words.lifecycle_named self.now name.now }
    {
        Named::find(self.lifecycles.as_slice(), name)
    }

    /// All lifecycles with their names. Takes no memory.
    pub fn lifecycles(&self) -> &[Named<Lifecycle>]
        ensures { result.now ≡ words.lifecycles_of self.now }
    {
        self.lifecycles.as_slice()
    }

    /// The calendar of this name, if there is one.
    pub fn calendar(&self, name: &str) -> Option<&Calendar>
        ensures { option_map (λ c. c.now) result ≡ words.calendar_named self.now name.now }
    {
        Named::find(self.calendars.as_slice(), name).map(|opening| &opening.calendar)
    }

    /// The zone that the hours of the calendar of this name were given in, if there is one. Takes
    /// no memory.
    pub fn zone(&self, name: &str) -> Option<&Zone>
        ensures { option_map (λ z. z.now) result ≡ words.zone_named self.now name.now }
    {
        Named::find(self.calendars.as_slice(), name).map(|opening| &opening.zone)
    }

    /// The level of this name, if there is one.
    pub fn level(&self, name: &str) -> Option<&Level>
        ensures { option_map (λ l. l.now) result ≡ words.level_named self.now name.now }
    {
        Named::find(self.levels.as_slice(), name)
    }

    /// All levels with their names. Takes no memory.
    pub fn levels(&self) -> &[Named<Level>]
        ensures { result.now ≡ words.levels_of self.now }
    {
        self.levels.as_slice()
    }

    /// The person of this token, if there is one.
    pub fn person_of_token(&self, token: &str) -> Option<&str>
        ensures { option_copied result ≡ words.person_of_token self.now token.now }
    {
        self.tokens
            .as_slice()
            .iter()
            .find(|t| t.token.as_str() == token)
            .map(|t| t.person.as_str())
    }

    /// All tokens with their persons, in their order. Takes no memory.
    pub fn tokens(&self) -> &[Token]
        ensures { result.now ≡ words.tokens_of self.now }
    {
        self.tokens.as_slice()
    }

    /// How many requests the desk may have.
    pub fn max_requests(&self) -> u32
        ensures { result ≡ words.request_limit self.now }
    {
        self.max_requests
    }

    /// How many entries the history of a request may have.
    pub fn max_entries(&self) -> u32
        ensures { result ≡ words.entry_limit self.now }
    {
        self.max_entries
    }
}

/// The settings that a table without a fault of form states, or its fault with the least number.
fn stated(alloc: Global, table: &Table) -> Result<Settings, SettingsFault>
    ensures ok { IfOk result (λ s. (spec.table_fault (table_view table.now) ≡ None)
        × IsStated (table_view table.now) s) }
    ensures err { IfErr result (λ e. e ≢ NoMemory
        → spec.table_fault (table_view table.now) ≡ Some e) }
{
    let settings = Settings::built(alloc, table)?;
    let fault = late_fault(alloc, table, &settings)?;
    match fault {
        Some(fault) => Err(fault),
        None => Ok(settings),
    }
}

/// The least fault of names, tokens and limits.
fn late_fault(
    alloc: Global,
    table: &Table,
    settings: &Settings,
) -> Result<Option<SettingsFault>, AllocError>
    requires { IsBuilt (table_view table.now) settings.now }
    ensures { IfOk result (λ fault. fault ≡ spec.late_fault (table_view table.now)) }
{
    let fault = if !knows_names(alloc, table, settings)? {
        Some(SettingsFault::UnknownName)
    } else if !are_tokens(settings.tokens.as_slice()) {
        Some(SettingsFault::BadToken)
    } else if !has_limits(table) {
        Some(SettingsFault::BadLimit)
    } else {
        None
    };
    Ok(fault)
}

/// Whether granted rights, the levels' calendars and statuses, and the tokens' persons are known.
fn knows_names(alloc: Global, table: &Table, settings: &Settings) -> Result<bool, AllocError>
    requires { IsBuilt (table_view table.now) settings.now }
    ensures { IfOk result (λ knows. knows ≡ knows_names_in (table_view table.now)) }
{
    let lifecycles = settings.lifecycles.as_slice();
    let levels = settings.levels.as_slice();
    let rights = knows_rights(alloc, lifecycles, settings.people.parts().grants.as_slice())?;
    let ignored = knows_ignored(alloc, lifecycles, levels)?;
    Ok(
        rights
            && knows_calendars(table, levels)
            && ignored
            && knows_persons(&settings.people, settings.tokens.as_slice()),
    )
}
