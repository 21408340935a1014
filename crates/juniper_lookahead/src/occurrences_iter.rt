//! Going over the occurrences of a field, from both ends.

ghost use Rattle.std.specs.Prelude.{◌≡◌, IfSome};
ghost use Rattle.std.specs.Iterator.{UpTo, YieldsFirstBy, YieldsLastBy, item_count};
ghost use Rattle.std.specs.Iterator.SizeHint.{IsWithinCount};
ghost use Rattle.juniper_lookahead.specs.Expansion.{IsAcyclic, occurrence_at, seen_ahead};
ghost use Rattle.juniper_lookahead.specs.OccurrencesView.{fields_ahead, occurrences_left};
ghost use Rattle.juniper_lookahead.specs.SelectionView.{view_selection};
ghost use Rattle.juniper_lookahead.specs.ValueView.{exactly};

use crate::occurrences::{Occurrence, OccurrencesIter};
use crate::selection::LookAheadSelection;
use juniper_syntax::{Fragments, ScalarValue, Variables};

impl<'r, 'd, 'a, S: ScalarValue> OccurrencesIter<'r, 'd, 'a, S> {
    /// Occurrences as look-ahead shows them, by the values of variables and the fragments by name, of which no spread leads back to
    /// its own fragment (5.5.2.2).
    pub fn new(
        occurrences: &'r [Occurrence<'d, 'a, S>],
        variables: &'r Variables<S>,
        fragments: &'r Fragments<'d, 'a, S>,
    ) -> Self
        requires { IsAcyclic S.shown fragments.now }
        ensures { occurrences_left result ≡ fields_ahead S.shown variables.now fragments.now occurrences.now }
    {
        OccurrencesIter {
            left: occurrences.iter(),
            variables,
            fragments,
        }
    }
}

impl<'r, 'd, 'a, S: ScalarValue> Iterator for OccurrencesIter<'r, 'd, 'a, S> {
    type Item = LookAheadSelection<'r, 'd, 'a, S>;

    ghost next_gives = { YieldsFirstBy view_selection occurrences_left };

    ghost remaining = { item_count occurrences_left };

    fn next(&mut self) -> Option<LookAheadSelection<'r, 'd, 'a, S>> {
        let first = self.left.next()?;
        Some(shown_ahead(first, self.variables, self.fragments))
    }

    fn size_hint(&self) -> (usize, Option<usize>)
        ensures lower { IsWithinCount result.0 (item_count occurrences_left self.now) }
        ensures upper { IfSome result.1 (UpTo (item_count occurrences_left self.now)) }
        ensures exact { result ≡ exactly (occurrences_left self.now) }
    {
        (self.left.len(), Some(self.left.len()))
    }
}

impl<'r, 'd, 'a, S: ScalarValue> DoubleEndedIterator for OccurrencesIter<'r, 'd, 'a, S> {
    ghost next_back_gives = { YieldsLastBy view_selection occurrences_left };

    fn next_back(&mut self) -> Option<LookAheadSelection<'r, 'd, 'a, S>> {
        let last = self.left.next_back()?;
        Some(shown_ahead(last, self.variables, self.fragments))
    }
}

impl<'r, 'd, 'a, S: ScalarValue> ExactSizeIterator for OccurrencesIter<'r, 'd, 'a, S> {
    fn len(&self) -> usize {
        self.left.len()
    }
}

/// An occurrence as look-ahead shows it.
#[tactic(auto, unfolding(crate::specs::Expansion::child_at, crate::specs::Expansion::occurrence_at, crate::specs::Expansion::seen_ahead, crate::specs::Expansion::unplaced_head))]
fn shown_ahead<'r, 'd, 'a, S: ScalarValue>(
    occurrence: &Occurrence<'d, 'a, S>,
    variables: &'r Variables<S>,
    fragments: &'r Fragments<'d, 'a, S>,
) -> LookAheadSelection<'r, 'd, 'a, S>
    requires { IsAcyclic S.shown fragments.now }
    ensures { view_selection result ≡ seen_ahead (occurrence_at S.shown variables.now fragments.now occurrence.now.field.now) }
{
    let field = occurrence.field;
    LookAheadSelection::new(&field.item, variables, fragments)
}
