//! Sets of names.

ghost use Rattle.std.specs.Prelude.{◌≡◌, IfOk, OnOk, cond, false, length, not, true};
ghost use Rattle.std.specs.Str.{bytes_eq};
ghost use Rattle.graphql_spec.specs.Shown.{Name};
ghost use Rattle.juniper_written.specs.WrittenView.{has_name, names_in};

use std::alloc::{AllocError, Global};
use std::collections::BTreeSet;

/// Names that a text holds, each once. They are kept in their order: who sends a request chooses its names, and could
/// choose such as a table by hashes finds only one after the other. A look-up compares the name with some of them, whose
/// number grows with the logarithm of how many there are.
#[derive(Drop)]
pub struct NameSet<'a> {
    sorted: BTreeSet<&'a str>,
}

impl<'a> NameSet<'a> {
    /// No names.
    pub fn new(alloc: Global) -> Self
        ensures { (n : Name) → has_name result n ≡ false }
    {
        NameSet {
            sorted: BTreeSet::new(alloc),
        }
    }

    /// How many names there are.
    pub fn len(&self) -> usize
        ensures { result ≡ length (names_in self.now) }
    {
        self.sorted.len()
    }

    /// Whether the name is there.
    pub fn contains(&self, name: &str) -> bool
        ensures { result ≡ has_name self.now name.now }
    {
        self.sorted.contains(name)
    }

    /// Whether the name is not there yet; afterwards it is. An error where memory is refused.
    pub fn insert(&mut self, name: &'a str) -> Result<bool, AllocError>
        ensures found { IfOk result (λ b. b ≡ not (has_name self.old name.now)) }
        ensures added { OnOk result ((n : Name) → has_name self.new n ≡ cond (bytes_eq name.now n) true (has_name self.old n)) }
    {
        Ok(self.sorted.insert(name)?)
    }
}
