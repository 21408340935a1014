//! The names that spreads lead to.

ghost use Rattle.std.specs.Prelude.{◌≡◌, ◌++◌, IfOk, List, OnOk};
ghost use Rattle.graphql_spec.specs.Shown.{Name};
ghost use Rattle.graphql_spec.specs.Documents.{Fragment};
ghost use Rattle.graphql_spec.specs.VariableUses.{is_reached};
ghost use Rattle.juniper_written.specs.WrittenView.{has_name, view_names};
ghost use Rattle.juniper_written.specs.SpreadsView.{AreSpreadsOf, names_or_none, spread_by};

use crate::{NameMap, NameSet};
use std::alloc::{AllocError, Global};

/// The names that each fragment spreads, by the fragment's name.
pub type SpreadsByName<'a> = NameMap<'a, Vec<&'a str>>;

/// The names, and all that their fragments' spreads lead to, known or not (5.8.3); the time grows with the number of
/// spreads. An error where memory is refused.
pub fn reached<'a>(
    alloc: Global,
    spreads: &SpreadsByName<'a>,
    names: &[&'a str],
) -> Result<NameSet<'a>, AllocError>
    ensures { IfOk result (λ r. (fs : List Fragment) → AreSpreadsOf spreads.now fs → (n : Name) → has_name r n ≡ is_reached fs (view_names names.now) n) }
{
    let mut seen = NameSet::new(alloc);
    let mut left = Vec::new(alloc);
    left.extend_from_slice(names)?;
    while let Some(name) = left.pop() {
        if seen.insert(name)? {
            follow(spreads, name, &mut left)?;
        }
    }
    Ok(seen)
}

/// Adds what the fragment of a name spreads.
fn follow<'a>(
    spreads: &SpreadsByName<'a>,
    name: &str,
    left: &mut Vec<&'a str>,
) -> Result<(), AllocError>
    ensures { OnOk result (view_names left.new.items ≡ view_names left.old.items ++ names_or_none (spread_by spreads.now name.now)) }
{
    match spreads.get(name) {
        Some(names) => {
            left.extend_from_slice(names)?;
            Ok(())
        }
        None => Ok(()),
    }
}
