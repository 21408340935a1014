//! Names by numbers.

ghost use Rattle.std.specs.Prelude.{◌≡◌, IfOk, List, map};
ghost use Rattle.graphql_spec.specs.Documents.{Fragment};
ghost use Rattle.juniper_written.specs.WrittenView.{view_names};
ghost use Rattle.juniper_written.specs.SpreadsView.{AreSpreadsOf};
ghost use Rattle.juniper_type_rules.specs.Numbers.{AreNumbers, numbers_at, spread_numbers_of, view_lists};

use juniper_written::{NameMap, SpreadsByName};
use std::alloc::{AllocError, Global};

/// A number for each name: the place of the first that is it.
pub(crate) fn numbers_of<'a>(
    alloc: Global,
    names: &Vec<&'a str>,
) -> Result<NameMap<'a, usize>, AllocError>
    ensures { IfOk result (λ m. AreNumbers m (view_names names.now.items)) }
{
    let mut numbers = NameMap::new(alloc);
    for number in 0..names.len() {
        numbers.put_first(names[number], number)?;
    }
    Ok(numbers)
}

/// For each name the numbers of what the first fragment of that name spreads.
pub(crate) fn spread_numbers(
    alloc: Global,
    numbers: &NameMap<'_, usize>,
    spreads: &SpreadsByName<'_>,
    names: &Vec<&str>,
) -> Result<Vec<Vec<usize>>, AllocError>
    ensures { IfOk result (λ ls. (fs : List Fragment) → AreSpreadsOf spreads.now fs →
        view_lists ls.items ≡ map (spread_numbers_of numbers.now fs) (view_names names.now.items)) }
{
    let mut lists = Vec::new(alloc);
    for index in 0..names.len() {
        let list = numbers_spread(alloc, numbers, spreads, names[index])?;
        lists.push(list)?;
    }
    Ok(lists)
}

/// The numbers of what the first fragment of a name spreads.
fn numbers_spread(
    alloc: Global,
    numbers: &NameMap<'_, usize>,
    spreads: &SpreadsByName<'_>,
    name: &str,
) -> Result<Vec<usize>, AllocError>
    ensures { IfOk result (λ r. (fs : List Fragment) → AreSpreadsOf spreads.now fs → r.items ≡ spread_numbers_of numbers.now fs name.now) }
{
    match spreads.get(name) {
        Some(spread) => numbers_at(alloc, numbers, spread),
        None => Ok(Vec::new(alloc)),
    }
}

/// The numbers of names, of those that have one.
pub(crate) fn numbers_at(
    alloc: Global,
    numbers: &NameMap<'_, usize>,
    names: &Vec<&str>,
) -> Result<Vec<usize>, AllocError>
    ensures { IfOk result (λ r. r.items ≡ numbers_at numbers.now (view_names names.now.items)) }
{
    let mut all = Vec::new(alloc);
    for index in 0..names.len() {
        match numbers.get(names[index]) {
            Some(number) => all.push(*number)?,
            None => {}
        }
    }
    Ok(all)
}
