//! The lifecycles of a settings text.

ghost use Rattle.std.specs.Prelude.{◌≡◌};
ghost use Rattle.lifecycle_core.specs.Standard.{default_lifecycle};
ghost use Rattle.lifecycle_core.specs.declared.parts.Parts.{Parts};
ghost use Rattle.settings_parts.specs.LifecycleParts.{lifecycle_of as parts_in};
ghost use Rattle.settings_core.specs.Lifecycles as spec;

use crate::fault::SettingsFault;
use crate::stated::Stated;
use lifecycle_core::Lifecycle;
use settings_parts::lifecycle::lifecycle_of;
use std::alloc::Global;
use toml::Table;

impl Stated for Lifecycle {
    ghost Parts = { Parts };

    ghost parts_of = { parts_in };

    ghost fault_of = { spec.table_fault };

    ghost has = { λ lifecycle parts. lifecycle ≡ parts };

    ghost standard_parts = { default_lifecycle };

    fn read(alloc: Global, table: &Table) -> Result<Lifecycle, SettingsFault> {
        let parts = lifecycle_of(alloc, table)?;
        let lifecycle = Lifecycle::build(alloc, &parts)?;
        Ok(lifecycle)
    }

    fn standard(alloc: Global) -> Result<Lifecycle, SettingsFault> {
        let lifecycle = Lifecycle::default_lifecycle(alloc)?;
        Ok(lifecycle)
    }
}
