//! Going over keys with values, in order. Each iterator is seen as the list of what it has left.

ghost use Rattle.std.specs.Prelude.{◌≡◌, length, zip};
ghost use Rattle.std.specs.Iterator.{at_most};
ghost use Rattle.std.specs.Map.Iter.{TakesFirst, deref_pair};

use std::alloc::Global;
use std::marker::Model;
use std::{slice, vec};

/// Keys with values, by reference.
#[derive(Drop)]
pub struct Entries<'a, V> {
    keys: slice::Iter<'a, String>,
    values: slice::Iter<'a, V>,
}

impl<'a, V> Model for Entries<'a, V> {
    ghost use Rattle.std.specs.Prelude.{◌≡◌, List, String, length, zip};
    ghost use Rattle.std.specs.Global.{Global};
    ghost use Rattle.std.specs.Slice.Iter.{iter_rest};

    ghost Value = { List (String Global × V) };

    ghost view = { λ e. zip (iter_rest e.keys) (iter_rest e.values) };

    ghost invariant = { λ e. length (iter_rest e.values) ≡ length (iter_rest e.keys) };
}

impl<'a, V> Entries<'a, V> {
    pub(crate) fn new(keys: &'a [String], values: &'a [V]) -> Entries<'a, V>
        requires { length values.now ≡ length keys.now }
        ensures { result ≡ zip keys.now values.now }
    {
        Entries {
            keys: keys.iter(),
            values: values.iter(),
        }
    }
}

impl<'a, V> Iterator for Entries<'a, V> {
    type Item = (&'a String, &'a V);

    ghost next_gives = { TakesFirst deref_pair };

    ghost remaining = { λ s. at_most (length s) };

    fn next(&mut self) -> Option<(&'a String, &'a V)> {
        let key = self.keys.next()?;
        Some((key, self.values.next().unwrap()))
    }
}

/// Keys with values, handed over.
#[derive(Drop)]
pub struct IntoEntries<V> {
    keys: vec::IntoIter<String>,
    values: vec::IntoIter<V>,
}

impl<V> Model for IntoEntries<V> {
    ghost use Rattle.std.specs.Prelude.{◌≡◌, List, String, length, zip};
    ghost use Rattle.std.specs.Global.{Global};
    ghost use Rattle.std.specs.Vec.Iter.{into_iter_items};

    ghost Value = { List (String Global × V) };

    ghost view = { λ e. zip (into_iter_items e.keys) (into_iter_items e.values) };

    ghost invariant = { λ e. length (into_iter_items e.values) ≡ length (into_iter_items e.keys) };
}

impl<V> IntoEntries<V> {
    pub(crate) fn new(keys: Vec<String>, values: Vec<V>) -> IntoEntries<V>
        requires { length values.items ≡ length keys.items }
        ensures { result ≡ zip keys.items values.items }
    {
        IntoEntries {
            keys: keys.into_iter(),
            values: values.into_iter(),
        }
    }
}

impl<V: Drop> Iterator for IntoEntries<V> {
    type Item = (String, V);

    ghost next_gives = { TakesFirst (λ p. p) };

    ghost remaining = { λ s. at_most (length s) };

    fn next(&mut self) -> Option<(String, V)> {
        let key = self.keys.next()?;
        Some((key, self.values.next().unwrap()))
    }
}
