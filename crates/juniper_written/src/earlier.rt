//! UniqueOperationNames and UniqueFragmentNames: no two operations, and no two fragments, have one name (sections 5.2.1.1 and 5.5.1.1
//! of the Specification).

ghost use Rattle.std.specs.Prelude.{◌≡◌, List, [], ◌∷◌, ◌++◌, OnOk};
ghost use Rattle.graphql_spec.specs.Documents as documents;
ghost use Rattle.graphql_spec.specs.Rules as rules;
ghost use Rattle.juniper_syntax.specs.DocumentView.{view_definition};
ghost use Rattle.juniper_written.specs.NamesBefore.{IsEarlier};

use crate::NameSet;
use juniper_syntax::{Definition, ScalarValue};
use std::alloc::{AllocError, Global};

/// The names of the definitions before one.
#[derive(Drop)]
pub struct Earlier<'a> {
    pub(crate) operations: NameSet<'a>,
    pub(crate) fragments: NameSet<'a>,
}

impl<'a> Earlier<'a> {
    /// Those before the first definition: none.
    pub fn new(alloc: Global) -> Self
        ensures { IsEarlier result [] }
    {
        Earlier {
            operations: NameSet::new(alloc),
            fragments: NameSet::new(alloc),
        }
    }

    /// Adds the name of a definition; an error where memory is refused.
    pub fn add<S: ScalarValue>(&mut self, definition: &Definition<'a, S>) -> Result<(), AllocError>
        ensures { OnOk result ((ds : List documents.Definition) → IsEarlier self.old ds →
            IsEarlier self.new (ds ++ view_definition S.shown definition.now ∷ [])) }
    {
        match definition {
            Definition::Operation(operation) => match operation.item.name {
                Some(name) => {
                    self.operations.insert(name.item)?;
                    Ok(())
                }
                None => Ok(()),
            },
            Definition::Fragment(fragment) => {
                self.fragments.insert(fragment.item.name.item)?;
                Ok(())
            }
        }
    }

    /// Whether the definition is an operation with the name of an earlier one.
    pub fn repeats_operation<S: ScalarValue>(&self, definition: &Definition<'a, S>) -> bool
        ensures { (ds : List documents.Definition) → IsEarlier self.now ds → result ≡ rules.repeats_operation ds (view_definition S.shown definition.now) }
    {
        match definition {
            Definition::Operation(operation) => match operation.item.name {
                Some(name) => self.operations.contains(name.item),
                None => false,
            },
            Definition::Fragment(_) => false,
        }
    }

    /// Whether the definition is a fragment with the name of an earlier one.
    pub fn repeats_fragment<S: ScalarValue>(&self, definition: &Definition<'a, S>) -> bool
        ensures { (ds : List documents.Definition) → IsEarlier self.now ds → result ≡ rules.repeats_fragment ds (view_definition S.shown definition.now) }
    {
        match definition {
            Definition::Operation(_) => false,
            Definition::Fragment(fragment) => self.fragments.contains(fragment.item.name.item),
        }
    }
}
