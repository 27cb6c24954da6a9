//! Who asks.

use settings_core::Settings;

/// Who asks, at which moment, in minutes since 1970-01-01 00:00 UTC, and by which settings it is
/// decided.
#[derive(Clone, Copy)]
pub struct Call<'c> {
    pub settings: &'c Settings,
    pub at: u32,
    pub caller: &'c str,
}
