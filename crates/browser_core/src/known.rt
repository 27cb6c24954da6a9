//! What is known of values that are told one after the other.
ghost use Rattle.std.specs.Prelude.{◌≡◌};
ghost use Rattle.std.specs.Option.{option_map};
ghost use Rattle.browser_core.specs.Known as spec;

/// What is known of values that are told one after the other.
#[derive(Clone, Copy)]
pub(crate) enum Known<'c> {
    Nothing,
    One(&'c [u8]),
    Several,
}

impl<'c> Known<'c> {
    /// With one value more.
    pub(crate) fn with(self, value: &'c [u8]) -> Known<'c>
        ensures { spec.known_of result ≡ spec.with_one (spec.known_of self.entry) value.entry.now }
    {
        match self {
            Known::Nothing => Known::One(value),
            Known::One(_) => Known::Several,
            Known::Several => Known::Several,
        }
    }

    /// The value, where it is the only one.
    pub(crate) fn the_one(self) -> Option<&'c [u8]>
        ensures { option_map (λ v. v.now) result ≡ spec.the_one (spec.known_of self.entry) }
    {
        match self {
            Known::One(value) => Some(value),
            Known::Nothing => None,
            Known::Several => None,
        }
    }
}
