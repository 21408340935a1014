//! The type, and what a nullable is and holds.

ghost use Rattle.std.specs.Prelude.{◌≡◌, ◌↔◌, Some, IsTrue, IsSome, is_some, is_none};
ghost use Rattle.juniper_conversions.specs.Nullable.{some, explicit, map_nullable};

use std::mem;

/// An input that tells a value that is left out from a null that is written (2.9.5): an argument that is not there may
/// leave a thing as it is, and a null may clear it. Where the two mean the same, an `Option` will do.
///
/// In order, a value that is left out stands first, then the null that is written, then the values.
#[derive(Clone, Copy, Debug, Drop, Eq, Hash, Ord, PartialEq, PartialOrd)]
pub enum Nullable<T> {
    /// Nothing is written.
    ImplicitNull,
    /// A null is written.
    ExplicitNull,
    /// A value is written.
    Some(T),
}

impl<T> Default for Nullable<T> {
    ghost use Rattle.juniper_conversions.specs.declared.nullable.Nullable.TheVariants.{ImplicitNull};

    ghost is_default = { λ n. n ≡ ImplicitNull };

    fn default() -> Self {
        Self::ImplicitNull
    }
}

impl<T> Nullable<T> {
    /// Whether a null is written.
    pub fn is_explicit_null(&self) -> bool
        ensures { IsTrue result ↔ (self.now ≡ Nullable.ExplicitNull) }
    {
        matches!(self, Self::ExplicitNull)
    }

    /// Whether nothing is written.
    pub fn is_implicit_null(&self) -> bool
        ensures { IsTrue result ↔ (self.now ≡ Nullable.ImplicitNull) }
    {
        matches!(self, Self::ImplicitNull)
    }

    /// Whether there is a value.
    pub fn is_some(&self) -> bool
        ensures { result ≡ is_some (some self.now) }
    {
        matches!(self, Self::Some(_))
    }

    /// Whether there is no value: nothing is written, or a null.
    pub fn is_null(&self) -> bool
        ensures { result ≡ is_none (some self.now) }
    {
        !self.is_some()
    }

    /// The same case, with a `&mut` to the value.
    pub fn as_mut(&mut self) -> Nullable<&mut T>
        ensures { map_nullable (λ x. x.now) result ≡ self.old }
    {
        match self {
            Self::Some(value) => Nullable::Some(value),
            Self::ExplicitNull => Nullable::ExplicitNull,
            Self::ImplicitNull => Nullable::ImplicitNull,
        }
    }

    /// The value, which the caller proves to be there. `message` says to a reader why it is.
    pub fn expect(self, _message: &str) -> T
        requires { IsSome (some self) }
        ensures { some self ≡ Some result }
    {
        match self {
            Self::Some(value) => value,
            Self::ExplicitNull | Self::ImplicitNull => unreachable!(),
        }
    }

    /// Puts `value` there, and answers what was there before.
    pub fn replace(&mut self, value: T) -> Self
        ensures before { result ≡ self.old }
        ensures after { self.new ≡ Nullable.Some value }
    {
        mem::replace(self, Self::Some(value))
    }

    /// The value, where there is one; `None` for either null.
    pub fn some(self) -> Option<T>
        ensures { result ≡ some self }
    {
        match self {
            Self::Some(value) => Some(value),
            Self::ExplicitNull | Self::ImplicitNull => None,
        }
    }

    /// What is written: `None` for nothing, `Some(None)` for a null, and `Some(Some(value))` for a value.
    pub fn explicit(self) -> Option<Option<T>>
        ensures { result ≡ explicit self }
    {
        match self {
            Self::Some(value) => Some(Some(value)),
            Self::ExplicitNull => Some(None),
            Self::ImplicitNull => None,
        }
    }
}
