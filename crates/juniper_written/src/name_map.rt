//! What stands at names.

ghost use Rattle.std.specs.Prelude.{◌≡◌, IfOk, None, OnOk, Some, cond, is_some};
ghost use Rattle.std.specs.Option.{option_copied, option_or};
ghost use Rattle.std.specs.Set.{is_member};
ghost use Rattle.std.specs.Str.{bytes_eq};
ghost use Rattle.graphql_spec.specs.Shown.{Name};
ghost use Rattle.juniper_written.specs.WrittenView.{named, view_names};

use std::alloc::{AllocError, Global};
use std::collections::BTreeMap;

/// What stands at names that a text holds. As in a `NameSet`, the names are kept in their order, and not by hashes.
#[derive(Drop)]
pub struct NameMap<'a, T> {
    sorted: BTreeMap<&'a str, T>,
}

impl<'a, T: Drop> NameMap<'a, T> {
    /// No names.
    pub fn new(alloc: Global) -> Self
        ensures { (k : Name) → named result k ≡ None }
    {
        NameMap {
            sorted: BTreeMap::new(alloc),
        }
    }

    /// What stands at the name.
    pub fn get(&self, name: &str) -> Option<&T>
        ensures { option_copied result ≡ named self.now name.now }
    {
        self.sorted.get(name)
    }

    /// Whether something stands at the name.
    pub fn contains(&self, name: &str) -> bool
        ensures { result ≡ is_some (named self.now name.now) }
    {
        self.sorted.contains_key(name)
    }

    /// Puts a value in at a name, where nothing stands there. An error where memory is refused.
    pub fn put_first(&mut self, name: &'a str, value: T) -> Result<(), AllocError>
        ensures { OnOk result ((k : Name) → named self.new k ≡ option_or (named self.old k) (cond (bytes_eq k name.now) (Some value) None)) }
    {
        if self.contains(name) {
            return Ok(());
        }
        self.sorted.insert(name, value)?;
        Ok(())
    }
}

impl<'a> NameMap<'a, Vec<&'a str>> {
    /// The names, each once. An error where memory is refused.
    pub fn names(&self, alloc: Global) -> Result<Vec<&'a str>, AllocError>
        ensures { IfOk result (λ r. (k : Name) → is_member bytes_eq (view_names r.items) k ≡ is_some (named self.now k)) }
    {
        self.sorted.keys().copied().collect(alloc)
    }
}
