//! Values under their names.

ghost use Rattle.std.specs.Prelude.{◌≡◌};
ghost use Rattle.std.specs.Option.{option_map};
ghost use Rattle.settings_core.specs.Named.{under};

use text_core::Text;

/// A lifecycle, a calendar or a level under its name.
#[derive(Drop)]
pub struct Named<T> {
    pub name: Text,
    pub value: T,
}

impl<T> Named<T> {
    /// The value of this name, if there is one.
    pub fn find<'a>(all: &'a [Named<T>], name: &str) -> Option<&'a T>
        ensures { option_map (λ value. value.now) result ≡ under name.now all.now }
    {
        all.iter()
            .find(|named| named.name.as_str() == name)
            .map(|named| &named.value)
    }
}

/// The name of the lifecycle and of the calendar that settings have without a text.
pub(crate) const STANDARD: &str = "default";
