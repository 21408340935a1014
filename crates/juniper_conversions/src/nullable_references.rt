//! Nullables of references, with copies of what they refer to.

ghost use Rattle.std.specs.Prelude.{◌≡◌, IfOk, OnErr, IsSomeAnd};
ghost use Rattle.juniper_conversions.specs.Nullable.{some, map_nullable, SameCase};

use crate::Nullable;
use std::alloc::AllocError;

impl<T> Nullable<&T> {
    /// The same case, with a copy of the value.
    pub fn copied(self) -> Nullable<T>
    where
        T: Copy,
        ensures { result ≡ map_nullable (λ x. x.now) self.entry }
    {
        match self {
            Nullable::Some(&value) => Nullable::Some(value),
            Nullable::ExplicitNull => Nullable::ExplicitNull,
            Nullable::ImplicitNull => Nullable::ImplicitNull,
        }
    }

    /// The same case, with a clone of the value.
    ///
    /// # Errors
    /// That memory was refused to the clone.
    pub fn cloned(self) -> Result<Nullable<T>, AllocError>
    where
        T: Clone,
        ensures ok { IfOk result (SameCase (λ x y. T.is_clone x.now y) self.entry) }
        ensures err { OnErr result (IsSomeAnd (some self.entry) (λ x. ¬ (T.is_infallible x.now))) }
    {
        match self {
            Nullable::Some(value) => Ok(Nullable::Some(value.clone()?)),
            Nullable::ExplicitNull => Ok(Nullable::ExplicitNull),
            Nullable::ImplicitNull => Ok(Nullable::ImplicitNull),
        }
    }
}

impl<T> Nullable<&mut T> {
    /// The same case, with a copy of the value.
    pub fn copied(self) -> Nullable<T>
    where
        T: Copy,
        ensures { result ≡ map_nullable (λ x. x.now) self.entry }
    {
        match self {
            Nullable::Some(value) => Nullable::Some(*value),
            Nullable::ExplicitNull => Nullable::ExplicitNull,
            Nullable::ImplicitNull => Nullable::ImplicitNull,
        }
    }

    /// The same case, with a clone of the value.
    ///
    /// # Errors
    /// That memory was refused to the clone.
    pub fn cloned(self) -> Result<Nullable<T>, AllocError>
    where
        T: Clone,
        ensures ok { IfOk result (SameCase (λ x y. T.is_clone x.now y) self.entry) }
        ensures err { OnErr result (IsSomeAnd (some self.entry) (λ x. ¬ (T.is_infallible x.now))) }
    {
        match self {
            Nullable::Some(value) => Ok(Nullable::Some((*value).clone()?)),
            Nullable::ExplicitNull => Ok(Nullable::ExplicitNull),
            Nullable::ImplicitNull => Ok(Nullable::ImplicitNull),
        }
    }
}
