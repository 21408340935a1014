//! Going over children and their names, from both ends.

ghost use Rattle.std.specs.Prelude.{◌≡◌, IfSome, Some, length, map};
ghost use Rattle.std.specs.Iterator.{UpTo, YieldsFirstBy, YieldsFirstRef, YieldsLastBy, YieldsLastRef, at_most, item_count};
ghost use Rattle.std.specs.Iterator.SizeHint.{IsWithinCount};
ghost use Rattle.juniper_lookahead.specs.SelectionView.{view_all, view_selection};
ghost use Rattle.juniper_lookahead.specs.ChildrenView.{name_of, view_children};
ghost use Rattle.juniper_lookahead.specs.GoingView.{children_left, handed_left, names_left};

use crate::children::LookAheadChildren;
use crate::selection::LookAheadSelection;
use juniper_syntax::ScalarValue;
use std::{slice, vec};

/// Children, by reference.
#[derive(Drop)]
pub struct ChildrenIter<'b, 'r, 'd, 'a, S: ScalarValue> {
    left: slice::Iter<'b, LookAheadSelection<'r, 'd, 'a, S>>,
}

impl<'b, 'r, 'd, 'a, S: ScalarValue> Iterator for ChildrenIter<'b, 'r, 'd, 'a, S> {
    type Item = &'b LookAheadSelection<'r, 'd, 'a, S>;

    ghost next_gives = { YieldsFirstBy (λ c. view_selection c.now) children_left };

    ghost remaining = { item_count children_left };

    fn next(&mut self) -> Option<&'b LookAheadSelection<'r, 'd, 'a, S>> {
        self.left.next()
    }

    fn size_hint(&self) -> (usize, Option<usize>)
        ensures lower { IsWithinCount result.0 (at_most (length (children_left self.now))) }
        ensures upper { IfSome result.1 (UpTo (at_most (length (children_left self.now)))) }
        ensures exact { result ≡ (length (children_left self.now), Some (length (children_left self.now))) }
    {
        let count = self.left.len();
        (count, Some(count))
    }
}

impl<'b, 'r, 'd, 'a, S: ScalarValue> DoubleEndedIterator for ChildrenIter<'b, 'r, 'd, 'a, S> {
    ghost next_back_gives = { YieldsLastBy (λ c. view_selection c.now) children_left };

    fn next_back(&mut self) -> Option<&'b LookAheadSelection<'r, 'd, 'a, S>> {
        self.left.next_back()
    }
}

impl<'b, 'r, 'd, 'a, S: ScalarValue> ExactSizeIterator for ChildrenIter<'b, 'r, 'd, 'a, S> {
    fn len(&self) -> usize {
        self.left.len()
    }
}

/// Children, handed over.
#[derive(Drop)]
pub struct ChildrenIntoIter<'r, 'd, 'a, S: ScalarValue> {
    left: vec::IntoIter<LookAheadSelection<'r, 'd, 'a, S>>,
}

impl<'r, 'd, 'a, S: ScalarValue> Iterator for ChildrenIntoIter<'r, 'd, 'a, S> {
    type Item = LookAheadSelection<'r, 'd, 'a, S>;

    ghost next_gives = { YieldsFirstBy view_selection handed_left };

    ghost remaining = { item_count handed_left };

    fn next(&mut self) -> Option<LookAheadSelection<'r, 'd, 'a, S>> {
        self.left.next()
    }

    fn size_hint(&self) -> (usize, Option<usize>)
        ensures lower { IsWithinCount result.0 (at_most (length (handed_left self.now))) }
        ensures upper { IfSome result.1 (UpTo (at_most (length (handed_left self.now)))) }
        ensures exact { result ≡ (length (handed_left self.now), Some (length (handed_left self.now))) }
    {
        let count = self.left.len();
        (count, Some(count))
    }
}

impl<'r, 'd, 'a, S: ScalarValue> DoubleEndedIterator for ChildrenIntoIter<'r, 'd, 'a, S> {
    ghost next_back_gives = { YieldsLastBy view_selection handed_left };

    fn next_back(&mut self) -> Option<LookAheadSelection<'r, 'd, 'a, S>> {
        self.left.next_back()
    }
}

impl<'r, 'd, 'a, S: ScalarValue> ExactSizeIterator for ChildrenIntoIter<'r, 'd, 'a, S> {
    fn len(&self) -> usize {
        self.left.len()
    }
}

/// The response names of children (2.7).
#[derive(Drop)]
pub struct NamesIter<'b, 'r, 'd, 'a, S: ScalarValue> {
    left: slice::Iter<'b, LookAheadSelection<'r, 'd, 'a, S>>,
}

impl<'b, 'r, 'd, 'a, S: ScalarValue> Iterator for NamesIter<'b, 'r, 'd, 'a, S> {
    type Item = &'a str;

    ghost next_gives = { YieldsFirstRef names_left };

    ghost remaining = { item_count names_left };

    fn next(&mut self) -> Option<&'a str> {
        match self.left.next() {
            Some(first) => Some(first.field_name()),
            None => None,
        }
    }

    fn size_hint(&self) -> (usize, Option<usize>)
        ensures lower { IsWithinCount result.0 (at_most (length (names_left self.now))) }
        ensures upper { IfSome result.1 (UpTo (at_most (length (names_left self.now)))) }
        ensures exact { result ≡ (length (names_left self.now), Some (length (names_left self.now))) }
    {
        let count = self.left.len();
        (count, Some(count))
    }
}

impl<'b, 'r, 'd, 'a, S: ScalarValue> DoubleEndedIterator for NamesIter<'b, 'r, 'd, 'a, S> {
    ghost next_back_gives = { YieldsLastRef names_left };

    fn next_back(&mut self) -> Option<&'a str> {
        match self.left.next_back() {
            Some(last) => Some(last.field_name()),
            None => None,
        }
    }
}

impl<'b, 'r, 'd, 'a, S: ScalarValue> ExactSizeIterator for NamesIter<'b, 'r, 'd, 'a, S> {
    fn len(&self) -> usize {
        self.left.len()
    }
}

impl<'r, 'd, 'a, S: ScalarValue> LookAheadChildren<'r, 'd, 'a, S> {
    /// The children in order, from both ends.
    #[tactic(auto, unfolding(crate::specs::ChildrenView::view_children))]
    pub fn iter(&self) -> ChildrenIter<'_, 'r, 'd, 'a, S>
        ensures { children_left result ≡ view_children self.now }
    {
        ChildrenIter {
            left: self.items.iter(),
        }
    }

    /// The response names of all children, in order, from both ends (2.7).
    #[tactic(auto, unfolding(crate::specs::ChildrenView::view_children))]
    pub fn names(&self) -> NamesIter<'_, 'r, 'd, 'a, S>
        ensures { names_left result ≡ map name_of (view_children self.now) }
    {
        NamesIter {
            left: self.items.iter(),
        }
    }
}

impl<'b, 'r, 'd, 'a, S: ScalarValue> IntoIterator for &'b LookAheadChildren<'r, 'd, 'a, S> {
    type Item = &'b LookAheadSelection<'r, 'd, 'a, S>;

    type IntoIter = ChildrenIter<'b, 'r, 'd, 'a, S>;

    ghost into_iter_gives = { λ c r. children_left r ≡ view_children c.now };

    fn into_iter(self) -> ChildrenIter<'b, 'r, 'd, 'a, S> {
        self.iter()
    }
}

impl<'r, 'd, 'a, S: ScalarValue> IntoIterator for LookAheadChildren<'r, 'd, 'a, S> {
    type Item = LookAheadSelection<'r, 'd, 'a, S>;

    type IntoIter = ChildrenIntoIter<'r, 'd, 'a, S>;

    ghost into_iter_gives = { λ c r. handed_left r ≡ view_children c };

    #[tactic(auto, unfolding(crate::specs::ChildrenView::view_children))]
    fn into_iter(self) -> ChildrenIntoIter<'r, 'd, 'a, S> {
        ChildrenIntoIter {
            left: self.items.into_iter(),
        }
    }
}
