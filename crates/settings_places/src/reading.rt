//! A settings text is read; of a fault it is told where it stands.

ghost use Rattle.std.specs.Prelude.{◌≡◌, ◌≢◌, Some, IfErr, IfOk, IsSomeAnd};
ghost use Rattle.std.specs.Option.{option_map};
ghost use Rattle.toml.specs.View.{table_view};
ghost use Rattle.settings_core.specs.Reading.{IsFaultOf, IsSettingsOf, fault_of};
ghost use Rattle.settings_core.specs.declared.fault.SettingsFault.TheVariants.{NoMemory};
ghost use Rattle.settings_places.specs.Place as spec;
ghost use Rattle.settings_places.specs.Placed.{HasFault};
ghost use Rattle.settings_places.specs.Reading.{IsUnread};

use crate::lines::{LineColumn, line_column};
use crate::place::{FaultPlace, place_of_fault};
use settings_core::{Settings, SettingsFault};
use std::alloc::{AllocError, Global};
use toml::Table;
use toml::de::Error;

/// A fault of a settings text, and the text's table, in which it stands.
#[derive(Drop)]
pub struct PlacedFault {
    pub fault: SettingsFault,
    pub table: Table,
}

impl PlacedFault {
    /// Where the fault stands first. Where it is the fault of the table there is such a place, and
    /// what stands there has the fault.
    pub fn place(&self, alloc: Global) -> Result<Option<FaultPlace<'_>>, AllocError>
        ensures first { IfOk result (λ place. option_map spec.seen place
            ≡ spec.place_of_fault (table_view self.now.table) self.now.fault) }
        ensures placed { fault_of (table_view self.now.table) ≡ Some self.now.fault
            → IfOk result (λ place. IsSomeAnd (option_map spec.seen place)
            (HasFault (table_view self.now.table) self.now.fault)) }
    {
        place_of_fault(alloc, &self.table, self.fault)
    }
}

/// Where bytes stop to be TOML, and why.
#[derive(Clone, Copy)]
pub struct TomlFault {
    pub at: LineColumn,
    pub error: Error,
}

/// Why a text states no settings.
#[derive(Drop)]
pub enum Unread {
    /// The bytes are no TOML.
    NotToml(TomlFault),
    /// The text has a fault, the one with the least number, which has a place.
    Fault(PlacedFault),
    /// Memory was refused.
    NoMemory,
}

/// The settings that a text states, as `Settings::read` does; or its fault with the least number and
/// the table in which that has a place, or where the bytes stop to be TOML.
pub fn read_telling(alloc: Global, bytes: &[u8]) -> Result<Settings, Unread>
    ensures ok { IfOk result (IsSettingsOf bytes.now) }
    ensures err { IfErr result (IsUnread bytes.now) }
{
    match Settings::read(alloc, bytes) {
        Ok(settings) => Ok(settings),
        Err(fault) => Err(unread_by(alloc, bytes, fault)),
    }
}

/// The fault of a text with its place, or want of memory.
fn unread_by(alloc: Global, bytes: &[u8], fault: SettingsFault) -> Unread
    requires { fault ≢ NoMemory → IsFaultOf bytes.now fault }
    ensures { IsUnread bytes.now result }
{
    match fault {
        SettingsFault::NoMemory => Unread::NoMemory,
        _ => why_unread(alloc, bytes, fault),
    }
}

/// The fault of a text, with its place.
fn why_unread(alloc: Global, bytes: &[u8], fault: SettingsFault) -> Unread
    requires { IsFaultOf bytes.now fault }
    ensures { IsUnread bytes.now result }
{
    match toml::table_from_slice(alloc, bytes) {
        Ok(table) => Unread::Fault(PlacedFault { fault, table }),
        Err(error) => match error.span() {
            Some(span) => Unread::NotToml(TomlFault {
                at: line_column(bytes, span.start),
                error,
            }),
            None => Unread::NoMemory,
        },
    }
}
