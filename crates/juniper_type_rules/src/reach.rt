//! What the fragments that an operation reaches use of variables (section 5.8.3 of the Specification).

ghost use Rattle.std.specs.Prelude.{◌≡◌, ◌∷◌, ◌++◌, IfOk, IsTrue, OnOk, false, get_or, map};
ghost use Rattle.std.specs.List.{flat_map};
ghost use Rattle.graphql_spec.specs.Documents.{Definition, Document, fragments};
ghost use Rattle.graphql_spec.specs.Rules as rules;
ghost use Rattle.graphql_spec.specs.Schema.{Schema};
ghost use Rattle.juniper_written.specs.WrittenView.{view_names};
ghost use Rattle.juniper_written.specs.SpreadsView.{AreSpreadsOf};
ghost use Rattle.juniper_type_rules.specs.UsesView.{AreUsesOfFragments, number_at, usage_of, numbered_of, uses_reached, view_used, view_used_at};
ghost use Rattle.juniper_type_rules.specs.UsesView.{view_all_numbered};
ghost use Rattle.juniper_type_rules.specs.UsesView.{named_in, where_marked};

use crate::found::found_from;
use crate::numbers::{numbers_at, numbers_of, spread_numbers};
use crate::uses::Used;
use juniper_written::{NameMap, SpreadsByName};
use std::alloc::{AllocError, Global};

/// What the fragments of a document use of variables, and which spread which. Each fragment has a number, its place among
/// them, so that a name is looked up once for each spread that is written, and no more.
#[derive(Drop)]
pub struct UsesOfFragments<'r, 'u> {
    /// The number of each name: that of the first fragment of the name.
    numbers: NameMap<'u, usize>,
    /// For each fragment the numbers of what the first one of its name spreads.
    lists: Vec<Vec<usize>>,
    /// What those use that have variables, in order.
    numbered: Vec<NumberedUsed<'r, 'u>>,
}

/// What a fragment uses, and the number of its name.
#[derive(Drop)]
struct NumberedUsed<'r, 'u> {
    number: usize,
    used: &'r Used<'u>,
}

/// What the fragments of a document use, where this is what each of its definitions uses, in order, and these are the spreads
/// of its fragments. An error where memory is refused.
pub fn uses_of_fragments<'r, 'u>(
    alloc: Global,
    all: &'r [Used<'u>],
    spreads: &SpreadsByName<'_>,
) -> Result<UsesOfFragments<'r, 'u>, AllocError>
    ensures { IfOk result (λ r. (s : Schema) (d : Document) → map view_used all.now ≡ map (usage_of s) d → AreSpreadsOf spreads.now (fragments d) →
        AreUsesOfFragments s r d) }
{
    let names = fragment_names(alloc, all)?;
    let numbers = numbers_of(alloc, &names)?;
    let lists = spread_numbers(alloc, &numbers, spreads, &names)?;
    let numbered = numbered_in(alloc, all, &numbers)?;
    Ok(UsesOfFragments {
        numbers,
        lists,
        numbered,
    })
}

impl<'r, 'u> UsesOfFragments<'r, 'u> {
    /// Whether variables stand neither in a definition, which uses this by itself, nor in any fragment: then the definition
    /// violates none of the rules on variables (5.8.3, 5.8.5), and nothing more has to be looked at.
    pub fn has_none_beside(&self, own: &Used<'_>) -> bool
        ensures { IsTrue result → (s : Schema) (d : Document) (x : Definition) → AreUsesOfFragments s self.now d → view_used own.now ≡ usage_of s x →
            (rules.uses_undefined s d x ≡ false) × (rules.misuses_variable s d x ≡ false) }
    {
        self.numbered.is_empty() && !own.has_variables()
    }

    /// What an operation uses by itself, and then what those fragments with variables use that its spreads, which are of these
    /// names, lead to (5.8.3). Where there are both, names and such fragments, the time grows with the number of fragments, a
    /// byte for each, and of the spreads in those that are reached. An error where memory is refused.
    pub fn with_reached(
        &self,
        alloc: Global,
        own: &'r Used<'u>,
        names: &Vec<&str>,
    ) -> Result<Vec<&'r Used<'u>>, AllocError>
        ensures { IfOk result (λ us. (s : Schema) (d : Document) → AreUsesOfFragments s self.now d →
            view_used_at us.items ≡ view_used own.now ∷ uses_reached s d (view_names names.now.items)) }
    {
        let mut uses = Vec::new(alloc);
        uses.push(own)?;
        if self.numbered.is_empty() || names.is_empty() {
            return Ok(uses);
        }
        let starts = numbers_at(alloc, &self.numbers, names)?;
        let marks = found_from(alloc, &self.lists, &starts)?;
        push_marked(&self.numbered, &marks, &mut uses)?;
        Ok(uses)
    }
}

/// Adds what is used where the number is marked.
fn push_marked<'r, 'u>(
    numbered: &[NumberedUsed<'r, 'u>],
    marks: &[bool],
    uses: &mut Vec<&'r Used<'u>>,
) -> Result<(), AllocError>
    ensures { OnOk result (view_used_at uses.new.items ≡ view_used_at uses.old.items ++ flat_map (where_marked marks.now) (view_all_numbered numbered.now)) }
{
    for one in numbered {
        if is_marked(marks, one.number) {
            uses.push(one.used)?;
        }
    }
    Ok(())
}

/// Whether a number is marked.
fn is_marked(marks: &[bool], number: usize) -> bool
    ensures { result ≡ get_or marks.now number false }
{
    match marks.get(number) {
        Some(mark) => *mark,
        None => false,
    }
}

/// The names of the fragments, in order.
fn fragment_names<'u>(alloc: Global, all: &[Used<'u>]) -> Result<Vec<&'u str>, AllocError>
    ensures { IfOk result (λ r. view_names r.items ≡ flat_map named_in (map view_used all.now)) }
{
    let mut names = Vec::new(alloc);
    for used in all {
        match used.fragment {
            Some(name) => names.push(name)?,
            None => {}
        }
    }
    Ok(names)
}

/// What those fragments use that have variables, in order, with the numbers of their names.
fn numbered_in<'r, 'u>(
    alloc: Global,
    all: &'r [Used<'u>],
    numbers: &NameMap<'u, usize>,
) -> Result<Vec<NumberedUsed<'r, 'u>>, AllocError>
    ensures { IfOk result (λ r. view_all_numbered r.items ≡ flat_map (numbered_of numbers.now) (map view_used all.now)) }
{
    let mut numbered = Vec::new(alloc);
    for used in all {
        push_numbered(used, numbers, &mut numbered)?;
    }
    Ok(numbered)
}

/// Adds what a definition uses, if it is a fragment and has variables.
fn push_numbered<'r, 'u>(
    used: &'r Used<'u>,
    numbers: &NameMap<'u, usize>,
    numbered: &mut Vec<NumberedUsed<'r, 'u>>,
) -> Result<(), AllocError>
    ensures { OnOk result (view_all_numbered numbered.new.items ≡ view_all_numbered numbered.old.items ++ numbered_of numbers.now (view_used used.now)) }
{
    if !used.has_variables() {
        return Ok(());
    }
    match number_at(numbers, used) {
        Some(number) => {
            numbered.push(NumberedUsed { number, used })?;
            Ok(())
        }
        None => Ok(()),
    }
}

/// The number of a fragment's name.
fn number_at(numbers: &NameMap<'_, usize>, used: &Used<'_>) -> Option<usize>
    ensures { result ≡ number_at numbers.now (view_used used.now).fragment }
{
    match used.fragment {
        Some(name) => numbers.get(name).copied(),
        None => None,
    }
}
