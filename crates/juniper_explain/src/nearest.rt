//! The nearest of some names, for those that are not known.

ghost use Rattle.std.specs.Prelude.{◌≡◌, ◌∷◌, IfOk, List, option_map, string_bytes};
ghost use Rattle.graphql_spec.specs.Shown.{Name};
ghost use Rattle.juniper_written.specs.WrittenView.{view_names};
ghost use Rattle.juniper_explain.specs.Nearest.{distance, nearest, suggested};
ghost use Rattle.juniper_explain.specs.NearView.{chosen};
ghost use Rattle.juniper_explain.specs.Nodes.{suggestion};

use std::alloc::{AllocError, Global};
use strsim::levenshtein;

/// The longest name that has near ones, in bytes.
const LONGEST: usize = 64;

/// The name that may have been meant: the first of these that is nearest, where a third of it and one character may differ.
/// An error where memory is refused.
pub(crate) fn suggested<'n>(
    alloc: Global,
    name: &str,
    names: &Vec<&'n str>,
) -> Result<Option<&'n str>, AllocError>
    ensures { IfOk result (λ o. option_map (λ k. k.now) o ≡ suggested name.now (view_names names.now.items)) }
{
    if name.len() > LONGEST {
        return Ok(None);
    }
    let bound = name.len() / 3 + 2;
    nearest(alloc, name, bound, names)
}

/// The first of the names that is nearest, of those that are nearer than the bound.
fn nearest<'n>(
    alloc: Global,
    name: &str,
    bound: usize,
    names: &Vec<&'n str>,
) -> Result<Option<&'n str>, AllocError>
    ensures { IfOk result (λ o. option_map (λ k. k.now) o ≡ nearest name.now bound (view_names names.now.items)) }
{
    let mut near = Near { name: None, bound };
    for index in 0..names.len() {
        let other = names[index];
        let edits = levenshtein(alloc, name, other)?;
        near = nearer(near, other, edits);
    }
    Ok(near.name)
}

/// The nearest of the names so far, and how much nearer a later one has to be.
#[derive(Clone, Copy)]
struct Near<'n> {
    name: Option<&'n str>,
    bound: usize,
}

/// What is nearest, where one more name is as far away as this.
fn nearer<'n>(near: Near<'n>, other: &'n str, edits: usize) -> Near<'n>
    ensures { (n : Name) (ks : List Name) → edits ≡ distance n other.now → chosen result n ks ≡ chosen near.entry n (other.now ∷ ks) }
{
    if edits < near.bound {
        return Near {
            name: Some(other),
            bound: edits,
        };
    }
    near
}

/// What is said of a name that may have been meant; nothing where there is none.
#[tactic(auto, unfolding(crate::specs::Nodes::suggestion))]
pub(crate) fn suggestion(alloc: Global, name: Option<&str>) -> Result<String, AllocError>
    ensures { IfOk result (λ t. string_bytes t ≡ suggestion (option_map (λ k. k.now) name.entry)) }
{
    match name {
        Some(name) => format!(in alloc; ", did you mean `{name}`?"),
        None => Ok(String::new(alloc)),
    }
}
