//! Values in order, for contracts that speak of lists.

ghost use Rattle.std.specs.Prelude.{◌≡◌, ◌==◌, length};

use std::marker::Model;

/// Values in order, which contracts see as a list.
///
/// It is made from a `Vec` and gives it back without taking memory.
#[derive(Clone, Debug, Drop)]
pub struct Sequence<T> {
    inner: Vec<T>,
}

impl<T> Model for Sequence<T> {
    ghost use Rattle.std.specs.Prelude.{List};

    ghost Value = { List T };

    ghost view = { λ s. s.inner.items };
}

impl<T> Sequence<T> {
    /// The values, to be looked at.
    pub fn as_slice(&self) -> &[T]
        ensures { result.now ≡ self.now }
    {
        self.inner.as_slice()
    }

    /// The list that the sequence was made of.
    pub fn into_vec(self) -> Vec<T>
        ensures { result.items ≡ self }
    {
        self.inner
    }

    /// How many values there are.
    pub fn len(&self) -> usize
        ensures { result ≡ length self.now }
    {
        self.inner.len()
    }

    /// Whether there is no value.
    pub fn is_empty(&self) -> bool
        ensures { result ≡ (length self.now == 0) }
    {
        self.inner.is_empty()
    }
}

impl<T> From<Vec<T>> for Sequence<T> {
    ghost from_gives = { λ v s. s ≡ v.items };

    fn from(values: Vec<T>) -> Sequence<T> {
        Sequence { inner: values }
    }
}

impl<T: PartialEq> PartialEq for Sequence<T> {
    ghost use Rattle.std.specs.Cmp.Lexicographic.{pointwise, lists_per};

    ghost eq = { pointwise T.eq };

    ghost laws = { lists_per T.laws };

    fn eq(&self, other: &Sequence<T>) -> bool {
        self.as_slice() == other.as_slice()
    }
}

impl<T: Eq> Eq for Sequence<T> {
    ghost use Rattle.std.specs.Cmp.Lexicographic.{lists_equiv};

    ghost laws = { lists_equiv T.Eq.laws };
}
