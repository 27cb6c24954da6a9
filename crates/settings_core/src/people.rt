//! The people of a settings text.

ghost use Rattle.std.specs.Prelude.{◌≡◌, ◌≢◌, None, Some, IfOk, IfErr};
ghost use Rattle.toml.specs.View.{table_view};
ghost use Rattle.rights_core.specs.RightsFaults.{fault_of};
ghost use Rattle.rights_core.specs.declared.fault.RightsFault.TheVariants.{NoMemory};
ghost use Rattle.settings_parts.specs.PeopleParts.{people_in};

use rights_core::{People, RightsFault};
use settings_parts::people::people_in;
use std::alloc::Global;
use toml::Table;

/// The people of a settings text.
pub fn people_of(alloc: Global, table: &Table) -> Result<People, RightsFault>
    ensures ok { IfOk result (λ p. (fault_of (people_in (table_view table.now)) ≡ None)
        × (p ≡ people_in (table_view table.now))) }
    ensures err { IfErr result (λ e. e ≢ NoMemory
        → fault_of (people_in (table_view table.now)) ≡ Some e) }
{
    let parts = people_in(alloc, table)?;
    People::build(
        alloc,
        parts.persons.as_slice(),
        parts.groups.as_slice(),
        parts.grants.as_slice(),
    )
}
