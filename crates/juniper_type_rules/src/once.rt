//! Variables that are used, each once.
//!
//! What a fragment uses is gone over for each operation that reaches it. Who sends a document chooses both, how often a variable
//! stands in a fragment and how many operations there are: so of a long list what stands in it before is left out.

ghost use Rattle.std.specs.Prelude.{◌≡◌, Bool, IfOk, IsTrue};
ghost use Rattle.std.specs.List.{list_any};
ghost use Rattle.graphql_spec.specs.Laws.{In};
ghost use Rattle.graphql_spec.specs.Shown.{Name};
ghost use Rattle.graphql_spec.specs.VariableUses as spec;
ghost use Rattle.juniper_meta.specs.MetaView.{view_type};
ghost use Rattle.juniper_written.specs.WrittenView.{view_names};
ghost use Rattle.juniper_type_rules.specs.UsesView.{view_use, view_uses};

use crate::uses::Use;
use juniper_syntax::Type;
use juniper_written::NameSet;
use std::alloc::{AllocError, Global};
use std::collections::BTreeMap;

/// The most items of a list that is left as it is.
const FEW: usize = 16;

/// The names, of many each once.
pub(crate) fn names_once<'u>(alloc: Global, names: Vec<&'u str>) -> Result<Vec<&'u str>, AllocError>
    ensures { IfOk result (λ kept. (test : Name → Bool) → list_any test (view_names kept.items) ≡ list_any test (view_names names.entry.items)) }
{
    if names.len() <= FEW {
        return Ok(names);
    }
    let mut seen = NameSet::new(alloc);
    let mut kept = Vec::new(alloc);
    for name in names {
        if seen.insert(name)? {
            kept.push(name)?;
        }
    }
    Ok(kept)
}

/// The uses, of many each once.
pub(crate) fn uses_once<'u>(alloc: Global, uses: Vec<Use<'u>>) -> Result<Vec<Use<'u>>, AllocError>
    ensures { IfOk result (λ kept. (test : spec.Use → Bool) → list_any test (view_uses kept.items) ≡ list_any test (view_uses uses.entry.items)) }
{
    if uses.len() <= FEW {
        return Ok(uses);
    }
    let mut places = Places::new(alloc);
    let mut kept = Vec::new(alloc);
    for one in uses {
        if !stands_at(&kept, places.of(one.variable), &one) {
            places.add(alloc, one.variable, kept.len())?;
            kept.push(one)?;
        }
    }
    Ok(kept)
}

/// Where the uses of each variable stand in a list. It only says where to look, so no clause speaks of what it holds.
#[derive(Drop)]
struct Places<'u> {
    by_name: BTreeMap<&'u str, Vec<usize>>,
}

impl<'u> Places<'u> {
    /// No places.
    fn new(alloc: Global) -> Self {
        Places {
            by_name: BTreeMap::new(alloc),
        }
    }

    /// The places of a variable.
    fn of(&self, name: &str) -> &[usize] {
        match self.by_name.get(name) {
            Some(places) => places.as_slice(),
            None => &[],
        }
    }

    /// Adds a place of a variable. An error where memory is refused.
    fn add(&mut self, alloc: Global, name: &'u str, place: usize) -> Result<(), AllocError> {
        match self.by_name.get_mut(name) {
            Some(places) => places.push(place)?,
            None => {
                let places = vec![in alloc; place]?;
                drop(self.by_name.insert(name, places)?);
            }
        }
        Ok(())
    }
}

/// Whether the use stands in the list, at one of these places.
fn stands_at(uses: &[Use<'_>], places: &[usize], one: &Use<'_>) -> bool
    ensures { IsTrue result → In (view_use one.now) (view_uses uses.now) }
{
    for place in places {
        match uses.get(*place) {
            Some(other) => {
                if is_same(other, one) {
                    return true;
                }
            }
            None => {}
        }
    }
    false
}

/// Whether two uses are the same.
fn is_same(one: &Use<'_>, other: &Use<'_>) -> bool
    ensures { IsTrue result → view_use one.now ≡ view_use other.now }
{
    one.variable == other.variable
        && one.has_default == other.has_default
        && is_same_type(one.place, other.place)
}

/// Whether two types are the same, with their expected numbers of items.
fn is_same_type(one: &Type<String>, other: &Type<String>) -> bool
    ensures { IsTrue result → view_type one.now ≡ view_type other.now }
{
    match one {
        Type::Named(name) => match other {
            Type::Named(own) => name.as_str() == own.as_str(),
            Type::NonNullNamed(_) | Type::List(_, _) | Type::NonNullList(_, _) => false,
        },
        Type::NonNullNamed(name) => match other {
            Type::NonNullNamed(own) => name.as_str() == own.as_str(),
            Type::Named(_) | Type::List(_, _) | Type::NonNullList(_, _) => false,
        },
        Type::List(inner, size) => match other {
            Type::List(own, own_size) => *size == *own_size && is_same_type(&**inner, &**own),
            Type::Named(_) | Type::NonNullNamed(_) | Type::NonNullList(_, _) => false,
        },
        Type::NonNullList(inner, size) => match other {
            Type::NonNullList(own, own_size) => {
                *size == *own_size && is_same_type(&**inner, &**own)
            }
            Type::Named(_) | Type::NonNullNamed(_) | Type::List(_, _) => false,
        },
    }
}
