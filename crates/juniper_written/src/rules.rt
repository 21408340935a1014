//! Rules on spreads: fragments that are unknown, or spread themselves; and the fragments that an operation reaches.

ghost use Rattle.std.specs.Prelude.{◌≡◌, IfOk, List, is_some, not};
ghost use Rattle.std.specs.List.{list_any};
ghost use Rattle.graphql_spec.specs.Shown.{Name};
ghost use Rattle.graphql_spec.specs.Documents.{Document, Fragment as SpecFragment, fragments};
ghost use Rattle.graphql_spec.specs.Documents as documents;
ghost use Rattle.graphql_spec.specs.Fragments.{spreads};
ghost use Rattle.graphql_spec.specs.Rules.{spreads_itself, spreads_unknown};
ghost use Rattle.graphql_spec.specs.VariableUses.{is_reached};
ghost use Rattle.graphql_spec.specs.Written.{selections_of};
ghost use Rattle.juniper_syntax.specs.DocumentView.{view_definition};
ghost use Rattle.juniper_written.specs.WrittenView.{has_name, view_names};
ghost use Rattle.juniper_written.specs.SpreadsView.{AreFragmentsOf, AreGroups, AreSpreadsOf, spread_by};

use crate::NameSet;
use crate::by_name::FragmentsByName;
use crate::groups::{Groups, told};
use crate::reach::{SpreadsByName, reached};
use juniper_syntax::{Definition, ScalarValue};
use std::alloc::{AllocError, Global};

impl<'d, 'a, S: ScalarValue> FragmentsByName<'d, 'a, S> {
    /// Whether a definition that spreads these names spreads a fragment that is not there (5.5.2.1).
    pub fn spreads_unknown(&self, names: &[&str]) -> bool
        ensures { (d : Document) (x : documents.Definition) → AreFragmentsOf S.shown self.now d → view_names names.now ≡ spreads (selections_of x) →
            result ≡ spreads_unknown d x }
    {
        has_unknown(&self.spreads, names)
    }

    /// Whether a definition that spreads these names is a fragment that they lead to (5.5.2.2). The time grows with the
    /// number of the names, where the definition is the first fragment of its name; of a later one it may have to go
    /// through all that they lead to. An error where memory is refused.
    pub fn spreads_itself(
        &self,
        alloc: Global,
        definition: &Definition<'a, S>,
        names: &[&'a str],
    ) -> Result<bool, AllocError>
        ensures { IfOk result (λ b. (d : Document) → AreFragmentsOf S.shown self.now d →
            view_names names.now ≡ spreads (selections_of (view_definition S.shown definition.now)) →
            b ≡ spreads_itself d (view_definition S.shown definition.now)) }
    {
        match definition {
            Definition::Fragment(fragment) => {
                let name = fragment.item.name.item;
                let found = leads_to(alloc, &self.spreads, &self.groups, names, name)?;
                Ok(found)
            }
            Definition::Operation(_) => Ok(false),
        }
    }

    /// The names that an operation that spreads these names reaches: these, and all that they lead to (5.8.3). The time
    /// grows with the number of spreads. An error where memory is refused.
    pub fn reached(&self, alloc: Global, names: &[&'a str]) -> Result<NameSet<'a>, AllocError>
        ensures { IfOk result (λ r. (d : Document) → AreFragmentsOf S.shown self.now d → (n : Name) →
            has_name r n ≡ is_reached (fragments d) (view_names names.now) n) }
    {
        reached(alloc, &self.spreads, names)
    }
}

/// Whether one of the names is no fragment's.
fn has_unknown<'a>(spreads: &SpreadsByName<'a>, names: &[&str]) -> bool
    ensures { result ≡ list_any (λ k. not (is_some (spread_by spreads.now k))) (view_names names.now) }
{
    for name in names {
        if is_unknown(spreads, *name) {
            return true;
        }
    }
    false
}

/// Whether a name is no fragment's.
fn is_unknown<'a>(spreads: &SpreadsByName<'a>, name: &str) -> bool
    ensures { result ≡ not (is_some (spread_by spreads.now name.now)) }
{
    !spreads.contains(name)
}

/// Whether one of the names is this name, or leads to it.
fn leads_to<'a>(
    alloc: Global,
    spreads: &SpreadsByName<'a>,
    groups: &Groups<'a>,
    names: &[&'a str],
    name: &str,
) -> Result<bool, AllocError>
    ensures { IfOk result (λ b. (fs : List SpecFragment) → AreSpreadsOf spreads.now fs → AreGroups groups.now fs →
        b ≡ is_reached fs (view_names names.now) name.now) }
{
    match told(groups, names, name) {
        Some(leads) => Ok(leads),
        None => {
            let found = reached(alloc, spreads, names)?;
            Ok(found.contains(name))
        }
    }
}
