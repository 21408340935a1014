//! The items of a list.

ghost use Rattle.std.specs.Prelude.{◌≡◌, IfSome};
ghost use Rattle.std.specs.Iterator.{YieldsFirstBy, YieldsLastBy, item_count, UpTo};
ghost use Rattle.std.specs.Iterator.SizeHint.{IsWithinCount};
ghost use Rattle.juniper_lookahead.specs.ValueView.{exactly, view_list, view_shown_item, item_shown, items_shown};

use crate::showing::shown_value;
use crate::values::{LookAheadList, LookAheadValue};
use juniper_syntax::{InputValue, ScalarValue, Span, Spanning, Variables};

/// The items of a list with their places, from both ends. It is seen as what is shown of those that are left.
#[derive(Drop)]
pub struct Iter<'a, S> {
    left: &'a [Spanning<InputValue<S>, Span>],
    variables: Option<&'a Variables<S>>,
}

impl<'a, S: ScalarValue> LookAheadList<'a, S> {
    /// The items in order, each with its place.
    pub fn iter(&self) -> Iter<'a, S>
        ensures { items_shown S.shown result.variables result.left.now ≡ view_list S.shown self.now }
    {
        Iter {
            left: self.items,
            variables: self.variables,
        }
    }
}

impl<'a, S: ScalarValue> IntoIterator for LookAheadList<'a, S> {
    type Item = Spanning<LookAheadValue<'a, S>, &'a Span>;

    type IntoIter = Iter<'a, S>;

    ghost into_iter_gives = { λ list it. items_shown S.shown it.variables it.left.now ≡ view_list S.shown list };

    fn into_iter(self) -> Iter<'a, S> {
        self.iter()
    }
}

impl<'a, 'l, S: ScalarValue> IntoIterator for &'l LookAheadList<'a, S> {
    type Item = Spanning<LookAheadValue<'a, S>, &'a Span>;

    type IntoIter = Iter<'a, S>;

    ghost into_iter_gives = { λ list it. items_shown S.shown it.variables it.left.now ≡ view_list S.shown list.now };

    fn into_iter(self) -> Iter<'a, S> {
        self.iter()
    }
}

impl<'a, S: ScalarValue> Iterator for Iter<'a, S> {
    type Item = Spanning<LookAheadValue<'a, S>, &'a Span>;

    ghost next_gives = { YieldsFirstBy (view_shown_item S.shown) (λ s. items_shown S.shown s.variables s.left.now) };

    ghost remaining = { item_count (λ s. items_shown S.shown s.variables s.left.now) };

    fn next(&mut self) -> Option<Spanning<LookAheadValue<'a, S>, &'a Span>> {
        let (first, others) = self.left.split_first()?;
        self.left = others;
        Some(shown_item(first, self.variables))
    }

    fn size_hint(&self) -> (usize, Option<usize>)
        ensures lower { IsWithinCount result.0 (item_count (λ s. items_shown S.shown s.variables s.left.now) self.now) }
        ensures upper { IfSome result.1 (UpTo (item_count (λ s. items_shown S.shown s.variables s.left.now) self.now)) }
        ensures exact { result ≡ exactly (items_shown S.shown self.now.variables self.now.left.now) }
    {
        (self.left.len(), Some(self.left.len()))
    }
}

impl<'a, S: ScalarValue> DoubleEndedIterator for Iter<'a, S> {
    ghost next_back_gives = { YieldsLastBy (view_shown_item S.shown) (λ s. items_shown S.shown s.variables s.left.now) };

    fn next_back(&mut self) -> Option<Spanning<LookAheadValue<'a, S>, &'a Span>> {
        let (last, others) = self.left.split_last()?;
        self.left = others;
        Some(shown_item(last, self.variables))
    }
}

impl<'a, S: ScalarValue> ExactSizeIterator for Iter<'a, S> {
    fn len(&self) -> usize {
        self.left.len()
    }
}

/// What is shown of an item.
#[tactic(auto, unfolding(crate::specs::ShownValues::shown_at))]
fn shown_item<'a, S: ScalarValue>(
    written: &'a Spanning<InputValue<S>, Span>,
    variables: Option<&'a Variables<S>>,
) -> Spanning<LookAheadValue<'a, S>, &'a Span>
    ensures { view_shown_item S.shown result ≡ item_shown S.shown variables.entry written.now }
{
    Spanning {
        item: shown_value(&written.item, variables),
        span: &written.span,
    }
}
