//! Laws of [`Nullable`]. Each function does nothing; its contract is the law.

ghost use Rattle.std.specs.Prelude.{◌≡◌, ◌↔◌, IsTrue};
ghost use Rattle.std.specs.declared.cmp.Ordering.TheVariants.{Equal, Less};

use crate::nullable::Nullable;
use std::hash::Hash;

/// A value that is left out stands first, then the null that is written, then the values in their own order.
pub fn nulls_stand_before_values<T: Ord>(x: &T, y: &T)
    ensures nulls { ⟦<Nullable<T> as Ord>⟧.cmp Nullable.ImplicitNull Nullable.ExplicitNull ≡ Less }
    ensures implicit { ⟦<Nullable<T> as Ord>⟧.cmp Nullable.ImplicitNull (Nullable.Some x.now) ≡ Less }
    ensures explicit { ⟦<Nullable<T> as Ord>⟧.cmp Nullable.ExplicitNull (Nullable.Some x.now) ≡ Less }
    ensures values { ⟦<Nullable<T> as Ord>⟧.cmp (Nullable.Some x.now) (Nullable.Some y.now) ≡ T.cmp x.now y.now }
{}

/// The order calls equal just what `==` does, where that of the type inside does.
pub fn order_agrees_with_equality<T: Ord>()
    ensures { ((x y : T) → (T.cmp x y ≡ Equal) ↔ IsTrue (T.eq x y)) → (a b : Nullable T) →
        (⟦<Nullable<T> as Ord>⟧.cmp a b ≡ Equal) ↔ IsTrue (⟦<Nullable<T> as PartialEq>⟧.eq a b) }
{}

/// What is equal is hashed alike.
pub fn hash_agrees_with_equality<T: Hash>()
    ensures { (a b : Nullable T) → IsTrue (⟦<Nullable<T> as PartialEq>⟧.eq a b) → ⟦<Nullable<T> as Hash>⟧.hash_input a ≡ ⟦<Nullable<T> as Hash>⟧.hash_input b }
{}
