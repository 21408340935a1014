//! The fragments of a document in an order in which each stands behind those that it spreads.

ghost use Rattle.std.specs.Prelude.{◌≡◌, ◌≤◌, ◌||◌, IfOk, List, OnOk, false, is_some, length, map, not, true};
ghost use Rattle.std.specs.List.{list_all};
ghost use Rattle.graphql_spec.specs.Shown.{Name};
ghost use Rattle.graphql_spec.specs.Documents.{Document, Fragment as SpecFragment, fragments};
ghost use Rattle.juniper_syntax.specs.DocumentView.{view_fragment};
ghost use Rattle.juniper_written.specs.WrittenView.{has_name, view_names};
ghost use Rattle.juniper_written.specs.Order.{AreInOrder, IsInOrder, IsTaken, found, is_among, is_ready};
ghost use Rattle.juniper_written.specs.SpreadsView.{AreFragmentsOf, AreSpreadsOf, names_or_none, spread_by};

use crate::NameSet;
use crate::by_name::FragmentsByName;
use crate::reach::SpreadsByName;
use crate::walk::walked;
use juniper_syntax::{Fragment, ScalarValue, Span, Spanning};
use std::alloc::{AllocError, Global};

impl<'d, 'a, S: ScalarValue> FragmentsByName<'d, 'a, S> {
    /// The fragments in an order in which each stands once, behind those that it spreads; of those of one name it is
    /// the first. All stand there but those that lead to a cycle (5.5.2.2). The time grows with the number of spreads.
    /// An error where memory is refused.
    pub fn in_order(
        &self,
        alloc: Global,
    ) -> Result<Vec<&'d Spanning<Fragment<'a, S>, Span>>, AllocError>
        ensures { IfOk result (λ r. (d : Document) → AreFragmentsOf S.shown self.now d →
            IsInOrder (fragments d) (map (λ f. view_fragment S.shown f.now) r.items)) }
    {
        let names = names_in_order(alloc, &self.spreads)?;
        self.fragments_of(alloc, &names)
    }

    /// The fragments of the names, in their order.
    fn fragments_of(
        &self,
        alloc: Global,
        names: &[&str],
    ) -> Result<Vec<&'d Spanning<Fragment<'a, S>, Span>>, AllocError>
        ensures { IfOk result (λ r. (d : Document) → AreFragmentsOf S.shown self.now d →
            map (λ f. view_fragment S.shown f.now) r.items ≡ found (fragments d) (view_names names.now)) }
    {
        let mut fragments = Vec::new(alloc);
        for name in names {
            match self.fragment(*name) {
                Some(fragment) => fragments.push(fragment)?,
                None => {}
            }
        }
        Ok(fragments)
    }
}

/// The names that are taken.
#[derive(Drop)]
struct Taken<'a> {
    /// In the order in which they were.
    order: Vec<&'a str>,
    /// The same as a set.
    names: NameSet<'a>,
}

/// The names of the fragments, each behind those that it spreads: all but those that lead to a cycle. A walk leaves the
/// fragments in such an order, so that the first round takes them all; as that is not proved, rounds over what is left
/// follow until one takes none.
fn names_in_order<'a>(
    alloc: Global,
    spreads: &SpreadsByName<'a>,
) -> Result<Vec<&'a str>, AllocError>
    ensures { IfOk result (λ r. (fs : List SpecFragment) → AreSpreadsOf spreads.now fs → AreInOrder fs (view_names r.items)) }
{
    let mut taken = Taken {
        order: Vec::new(alloc),
        names: NameSet::new(alloc),
    };
    let names = spreads.names(alloc)?;
    let walk = walked(alloc, spreads, &names)?;
    taken.take_ready(alloc, spreads, &walk.left)?;
    let mut left = names;
    loop {
        let kept = taken.take_ready(alloc, spreads, &left)?;
        if kept.len() == left.len() {
            return Ok(taken.order);
        }
        left = kept;
    }
}

impl<'a> Taken<'a> {
    /// Takes each of the names whose spreads are taken by then, or no fragment's; answers those that are left.
    fn take_ready(
        &mut self,
        alloc: Global,
        spreads: &SpreadsByName<'a>,
        names: &[&'a str],
    ) -> Result<Vec<&'a str>, AllocError>
        ensures taken { OnOk result ((fs : List SpecFragment) → AreSpreadsOf spreads.now fs →
            IsTaken fs (has_name self.old.names) (view_names self.old.order.items) → IsTaken fs (has_name self.new.names) (view_names self.new.order.items)) }
        ensures stays { OnOk result ((k : Name) → has_name self.old.names k ≡ true → has_name self.new.names k ≡ true) }
        ensures left { IfOk result (λ r. (k : Name) → is_among (view_names names.now) k ≡ true →
            (has_name self.new.names k || is_among (view_names r.items) k) ≡ true) }
        ensures fewer { IfOk result (λ r. length r.items ≤ length names.now) }
        ensures stuck { IfOk result (λ r. length r.items ≡ length names.now → (k : Name) → is_among (view_names names.now) k ≡ true →
            is_ready spreads.now (has_name self.new.names) k ≡ false) }
    {
        let mut left = Vec::new(alloc);
        for name in names {
            if !self.take(spreads, *name)? {
                left.push(*name)?;
            }
        }
        Ok(left)
    }

    /// Takes a name whose spreads are taken, or no fragment's; whether it is taken now.
    fn take(&mut self, spreads: &SpreadsByName<'a>, name: &'a str) -> Result<bool, AllocError>
        ensures taken { OnOk result ((fs : List SpecFragment) → AreSpreadsOf spreads.now fs →
            IsTaken fs (has_name self.old.names) (view_names self.old.order.items) → IsTaken fs (has_name self.new.names) (view_names self.new.order.items)) }
        ensures stays { OnOk result ((k : Name) → has_name self.old.names k ≡ true → has_name self.new.names k ≡ true) }
        ensures is { IfOk result (λ b. b ≡ has_name self.new.names name.now) }
        ensures not_ready { IfOk result (λ b. b ≡ false → (self.new ≡ self.old) × (is_ready spreads.now (has_name self.old.names) name.now ≡ false)) }
    {
        if self.names.contains(name) {
            return Ok(true);
        }
        if !are_done(spreads, name, &self.names) {
            return Ok(false);
        }
        self.names.insert(name)?;
        self.order.push(name)?;
        Ok(true)
    }
}

/// Whether the fragments that a fragment spreads are done.
fn are_done<'a>(spreads: &SpreadsByName<'a>, name: &str, done: &NameSet<'a>) -> bool
    ensures { result ≡ list_all (λ n. has_name done.now n || not (is_some (spread_by spreads.now n))) (names_or_none (spread_by spreads.now name.now)) }
{
    match spreads.get(name) {
        Some(names) => all_done(spreads, names, done),
        None => true,
    }
}

/// Whether the names are done, or no fragment's.
fn all_done<'a>(spreads: &SpreadsByName<'a>, names: &[&str], done: &NameSet<'a>) -> bool
    ensures { result ≡ list_all (λ k. has_name done.now k || not (is_some (spread_by spreads.now k))) (view_names names.now) }
{
    for name in names {
        if !is_done(spreads, *name, done) {
            return false;
        }
    }
    true
}

/// Whether a name is done, or no fragment's.
fn is_done<'a>(spreads: &SpreadsByName<'a>, name: &str, done: &NameSet<'a>) -> bool
    ensures { result ≡ (has_name done.now name.now || not (is_some (spread_by spreads.now name.now))) }
{
    done.contains(name) || !spreads.contains(name)
}
