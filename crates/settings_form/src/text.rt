//! A text of settings as a table.

ghost use Rattle.std.specs.Prelude.{◌≢◌, IfOk, IfErr};
ghost use Rattle.toml.specs.View.{table_view};
ghost use Rattle.settings_form.specs.Text.{IsFormed, HasFault};

use crate::fault::TextFault;
use crate::walk;
use std::alloc::Global;
use toml::Table;

/// The table of a text that has the form of settings.
pub fn table_of(alloc: Global, bytes: &[u8]) -> Result<Table, TextFault>
    ensures ok { IfOk result (λ t. IsFormed bytes.now (table_view t)) }
    ensures err { IfErr result (λ e. e ≢ TextFault.NoMemory → HasFault bytes.now e) }
{
    match toml::table_from_slice(alloc, bytes) {
        Ok(table) => match walk::form_fault(&table) {
            Some(fault) => Err(TextFault::Form(fault)),
            None => Ok(table),
        },
        Err(e) => {
            if e.is_memory() {
                Err(TextFault::NoMemory)
            } else {
                Err(TextFault::NotToml)
            }
        }
    }
}
