//! The names of rights.

ghost use Rattle.std.specs.Prelude.{◌≡◌, true, IfOk};
ghost use Rattle.text_core.specs.Form.{is_right_name};

use crate::text::Text;
use std::alloc::{AllocError, Global};
use std::marker::Model;

/// A right's name: 1 to 32 letters of ASCII. Contracts see the list of its bytes.
#[derive(Clone, Debug, Drop)]
pub struct RightName {
    text: Text,
}

impl Model for RightName {
    ghost use Rattle.std.specs.Prelude.{◌≡◌, ℕ, List, true};
    ghost use Rattle.text_core.specs.Form.{is_right_name};

    ghost Value = { List ℕ };

    ghost view = { λ name. name.text };

    ghost invariant = { λ name. is_right_name name.text ≡ true };
}

impl RightName {
    /// A copy of a text that is a right's name.
    pub fn new(alloc: Global, text: &str) -> Result<RightName, AllocError>
        requires { is_right_name text.now ≡ true }
        ensures { IfOk result (λ name. name ≡ text.now) }
    {
        Ok(RightName {
            text: Text::new(alloc, text)?,
        })
    }

    /// The name, to be looked at.
    pub fn as_str(&self) -> &str
        ensures same { result.now ≡ self.now }
        ensures form { is_right_name self.now ≡ true }
    {
        self.text.as_str()
    }
}

impl PartialEq for RightName {
    ghost use Rattle.std.specs.Str.{bytes_eq};
    ghost use Rattle.std.specs.Cmp.{partial_equiv_from_equiv};
    ghost use Rattle.std.specs.Cmp.Lexicographic.{nat_list_eq_equiv};

    ghost eq = { bytes_eq };

    ghost laws = { partial_equiv_from_equiv nat_list_eq_equiv };

    fn eq(&self, other: &RightName) -> bool {
        self.text == other.text
    }
}
