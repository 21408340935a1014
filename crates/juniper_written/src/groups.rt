//! Fragments in groups: those of a group lead to one another (5.5.2.2).

ghost use Rattle.std.specs.Prelude.{◌≡◌, ◌≤◌, Bool, IfOk, List, OnOk, Some, [], ◌∷◌, false, true};
ghost use Rattle.std.specs.List.{list_any};
ghost use Rattle.graphql_spec.specs.Shown.{Name};
ghost use Rattle.graphql_spec.specs.Documents.{Fragment};
ghost use Rattle.graphql_spec.specs.VariableUses.{is_reached};
ghost use Rattle.juniper_written.specs.WrittenView.{named, view_names};
ghost use Rattle.juniper_written.specs.Order.{is_among};
ghost use Rattle.juniper_written.specs.declared.groups.Root.{Root};
ghost use Rattle.juniper_written.specs.SpreadsView.{AreGroups, AreSpreadsOf, Falls, LeadToRoot, RootLeads, has_root, rank_of};

use crate::NameMap;
use crate::reach::SpreadsByName;
use crate::walk::{spreaders, walked};
use std::alloc::{AllocError, Global};
use std::cmp::max;

/// One of a group of fragments that lead to one another, by which the group is known.
#[derive(Clone, Copy)]
pub struct Root<'a> {
    /// Its name.
    pub name: &'a str,
    /// A number, that of no fragment below 1: no fragment spreads one whose root has a greater number.
    pub number: usize,
}

/// The root of each fragment's group, by the fragment's name.
pub type Groups<'a> = NameMap<'a, Root<'a>>;

/// The fragments in groups; the time grows with the number of spreads. Where a walk leaves each behind all others that it
/// spreads, each is a group of its own. An error where memory is refused.
pub fn grouped<'a>(alloc: Global, spreads: &SpreadsByName<'a>) -> Result<Groups<'a>, AllocError>
    ensures { IfOk result (λ g. (fs : List Fragment) → AreSpreadsOf spreads.now fs → AreGroups g fs) }
{
    let names = spreads.names(alloc)?;
    if names.is_empty() {
        return Ok(NameMap::new(alloc));
    }
    let along = walked(alloc, spreads, &names)?;
    let alone = each_alone(alloc, &along.left)?;
    if never_rise(spreads, &alone, &names) {
        Ok(alone)
    } else {
        grouped_by_walks(alloc, spreads)
    }
}

/// Each of the names as a group of its own, in their order.
fn each_alone<'a>(alloc: Global, order: &[&'a str]) -> Result<Groups<'a>, AllocError>
    ensures { IfOk result (λ r. (k : Name) (x : Root) → named r k ≡ Some x → x.name.now ≡ k) }
{
    let mut roots = NameMap::new(alloc);
    for index in 0..order.len() {
        let name = order[index];
        let number = index + 1;
        roots.put_first(name, Root { name, number })?;
    }
    Ok(roots)
}

/// The fragments in groups. A walk against the spreads leaves the fragments in an order from whose end a walk along them
/// goes through one group after the other (Kosaraju's two walks). As that is not proved, a fragment is in a group only
/// where it is found that its root leads to it and it to its root, and none is where a number rises. An error where
/// memory is refused.
fn grouped_by_walks<'a>(
    alloc: Global,
    spreads: &SpreadsByName<'a>,
) -> Result<Groups<'a>, AllocError>
    ensures { IfOk result (λ g. (fs : List Fragment) → AreSpreadsOf spreads.now fs → AreGroups g fs) }
{
    let names = spreads.names(alloc)?;
    let reversed = spreaders(alloc, spreads, &names)?;
    let against = walked(alloc, &reversed, &names)?;
    let along = walked(alloc, spreads, &against.left)?;
    let roots = roots_before(alloc, spreads, &along.entered)?;
    let groups = leading_back(alloc, spreads, &roots, &against.entered)?;
    if never_rise(spreads, &groups, &names) {
        Ok(groups)
    } else {
        Ok(NameMap::new(alloc))
    }
}

/// Puts each name under a root that leads to it: that of the first in the list that spreads it, where that stands before
/// it; else the name itself.
fn roots_before<'a>(
    alloc: Global,
    spreads: &SpreadsByName<'a>,
    order: &[&'a str],
) -> Result<Groups<'a>, AllocError>
    ensures { IfOk result (λ r. (fs : List Fragment) → AreSpreadsOf spreads.now fs → RootLeads r fs) }
{
    let mut roots = NameMap::new(alloc);
    for index in 0..order.len() {
        let name = order[index];
        let number = index + 1;
        roots.put_first(name, Root { name, number })?;
        hand_on(spreads, name, &mut roots)?;
    }
    Ok(roots)
}

/// Puts what a fragment spreads under its root, where it stands under none.
fn hand_on<'a>(
    spreads: &SpreadsByName<'a>,
    name: &str,
    roots: &mut Groups<'a>,
) -> Result<(), AllocError>
    ensures { OnOk result ((fs : List Fragment) → AreSpreadsOf spreads.now fs → RootLeads roots.old fs → RootLeads roots.new fs) }
{
    let root = match roots.get(name) {
        Some(root) => *root,
        None => return Ok(()),
    };
    match spreads.get(name) {
        Some(names) => {
            for inner in names {
                roots.put_first(*inner, root)?;
            }
            Ok(())
        }
        None => Ok(()),
    }
}

/// Those that lead to their root, each with it, so far as the list has them behind one of their group that they spread.
fn leading_back<'a>(
    alloc: Global,
    spreads: &SpreadsByName<'a>,
    roots: &Groups<'a>,
    order: &[&'a str],
) -> Result<Groups<'a>, AllocError>
    ensures led { IfOk result (λ r. (fs : List Fragment) → RootLeads roots.now fs → RootLeads r fs) }
    ensures back { IfOk result (λ r. (fs : List Fragment) → AreSpreadsOf spreads.now fs → LeadToRoot r fs) }
{
    let mut groups = NameMap::new(alloc);
    for name in order {
        put_leading(spreads, roots, *name, &mut groups)?;
    }
    Ok(groups)
}

/// Puts a fragment in with its root, where it leads to that.
fn put_leading<'a>(
    spreads: &SpreadsByName<'a>,
    roots: &Groups<'a>,
    name: &'a str,
    groups: &mut Groups<'a>,
) -> Result<(), AllocError>
    ensures led { OnOk result ((fs : List Fragment) → RootLeads roots.now fs → RootLeads groups.old fs → RootLeads groups.new fs) }
    ensures back { OnOk result ((fs : List Fragment) → AreSpreadsOf spreads.now fs → LeadToRoot groups.old fs → LeadToRoot groups.new fs) }
{
    match roots.get(name) {
        Some(root) => {
            if leads_back(spreads, groups, name, root.name) {
                groups.put_first(name, *root)
            } else {
                Ok(())
            }
        }
        None => Ok(()),
    }
}

/// Whether a fragment is this root, or spreads one of its group.
fn leads_back<'a>(spreads: &SpreadsByName<'a>, groups: &Groups<'a>, name: &str, root: &str) -> bool
    ensures { result ≡ true → (fs : List Fragment) → AreSpreadsOf spreads.now fs → LeadToRoot groups.now fs → is_reached fs (name.now ∷ []) root.now ≡ true }
{
    if name == root {
        return true;
    }
    match spreads.get(name) {
        Some(names) => has_one_of(groups, names, root),
        None => false,
    }
}

/// Whether one of the names is of the root's group.
fn has_one_of<'a>(groups: &Groups<'a>, names: &[&str], root: &str) -> bool
    ensures { result ≡ list_any (λ k. has_root root.now (named groups.now k)) (view_names names.now) }
{
    for name in names {
        if is_under(groups, *name, root) {
            return true;
        }
    }
    false
}

/// Whether a name is of the root's group.
fn is_under<'a>(groups: &Groups<'a>, name: &str, root: &str) -> bool
    ensures { result ≡ has_root root.now (named groups.now name.now) }
{
    match groups.get(name) {
        Some(found) => found.name == root,
        None => false,
    }
}

/// Whether none of the fragments spreads one whose root has a greater number.
fn never_rise<'a>(spreads: &SpreadsByName<'a>, groups: &Groups<'a>, names: &[&str]) -> bool
    ensures { result ≡ true → (k : Name) → is_among (view_names names.now) k ≡ true → Falls spreads.now groups.now k }
{
    for name in names {
        if rises(spreads, groups, *name) {
            return false;
        }
    }
    true
}

/// Whether a fragment spreads one whose root has a greater number.
fn rises<'a>(spreads: &SpreadsByName<'a>, groups: &Groups<'a>, name: &str) -> bool
    ensures { result ≡ false → Falls spreads.now groups.now name.now }
{
    match spreads.get(name) {
        Some(names) => greatest(groups, names) > rank(groups, name),
        None => false,
    }
}

/// The greatest number of the names' roots; 0 where there are none.
fn greatest<'a>(groups: &Groups<'a>, names: &[&str]) -> usize
    ensures { (k : Name) → is_among (view_names names.now) k ≡ true → rank_of (named groups.now k) ≤ result }
{
    let mut greatest = 0;
    for name in names {
        greatest = max(greatest, rank(groups, *name));
    }
    greatest
}

/// The number of a name's root; 0 where it is of no group.
fn rank<'a>(groups: &Groups<'a>, name: &str) -> usize
    ensures { result ≡ rank_of (named groups.now name.now) }
{
    match groups.get(name) {
        Some(root) => root.number,
        None => 0,
    }
}

/// Whether one of the names is this name, or leads to it, where the groups tell: one does that is of its group, and none
/// does where all numbers are smaller. They tell it of all that a fragment's first definition spreads.
pub(crate) fn told<'a>(groups: &Groups<'a>, names: &[&str], name: &str) -> Option<bool>
    ensures { (fs : List Fragment) → AreGroups groups.now fs → (b : Bool) → result ≡ Some b → b ≡ is_reached fs (view_names names.now) name.now }
{
    match groups.get(name) {
        Some(root) => {
            if has_one_of(groups, names, root.name) {
                Some(true)
            } else if greatest(groups, names) < root.number {
                Some(false)
            } else {
                None
            }
        }
        None => None,
    }
}
