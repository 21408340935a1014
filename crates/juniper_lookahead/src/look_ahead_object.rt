//! The fields of an object.

ghost use Rattle.std.specs.Prelude.{◌≡◌, IfSome};
ghost use Rattle.std.specs.Iterator.{YieldsFirstBy, YieldsLastBy, item_count, UpTo};
ghost use Rattle.std.specs.Iterator.SizeHint.{IsWithinCount};
ghost use Rattle.juniper_lookahead.specs.ValueView.{exactly, view_object, view_shown_field, field_shown, fields_shown};

use crate::showing::shown_value;
use crate::values::{LookAheadObject, LookAheadValue};
use juniper_syntax::{InputField, ScalarValue, Span, Spanning, Variables};

/// A field of an object: its name and its value, each with its place.
pub(crate) type ShownField<'a, S> = (
    Spanning<&'a str, &'a Span>,
    Spanning<LookAheadValue<'a, S>, &'a Span>,
);

/// The fields of an object with their places, from both ends. It is seen as what is shown of those that are left.
#[derive(Drop)]
pub struct Iter<'a, S> {
    left: &'a [InputField<S>],
    variables: Option<&'a Variables<S>>,
}

impl<'a, S: ScalarValue> LookAheadObject<'a, S> {
    /// The fields in order, each name and each value with its place.
    pub fn iter(&self) -> Iter<'a, S>
        ensures { fields_shown S.shown result.variables result.left.now ≡ view_object S.shown self.now }
    {
        Iter {
            left: self.fields,
            variables: self.variables,
        }
    }
}

impl<'a, S: ScalarValue> IntoIterator for LookAheadObject<'a, S> {
    type Item = ShownField<'a, S>;

    type IntoIter = Iter<'a, S>;

    ghost into_iter_gives = { λ object it. fields_shown S.shown it.variables it.left.now ≡ view_object S.shown object };

    fn into_iter(self) -> Iter<'a, S> {
        self.iter()
    }
}

impl<'a, 'o, S: ScalarValue> IntoIterator for &'o LookAheadObject<'a, S> {
    type Item = ShownField<'a, S>;

    type IntoIter = Iter<'a, S>;

    ghost into_iter_gives = { λ object it. fields_shown S.shown it.variables it.left.now ≡ view_object S.shown object.now };

    fn into_iter(self) -> Iter<'a, S> {
        self.iter()
    }
}

impl<'a, S: ScalarValue> Iterator for Iter<'a, S> {
    type Item = ShownField<'a, S>;

    ghost next_gives = { YieldsFirstBy (view_shown_field S.shown) (λ s. fields_shown S.shown s.variables s.left.now) };

    ghost remaining = { item_count (λ s. fields_shown S.shown s.variables s.left.now) };

    fn next(&mut self) -> Option<ShownField<'a, S>> {
        let (first, others) = self.left.split_first()?;
        self.left = others;
        Some(shown_field(first, self.variables))
    }

    fn size_hint(&self) -> (usize, Option<usize>)
        ensures lower { IsWithinCount result.0 (item_count (λ s. fields_shown S.shown s.variables s.left.now) self.now) }
        ensures upper { IfSome result.1 (UpTo (item_count (λ s. fields_shown S.shown s.variables s.left.now) self.now)) }
        ensures exact { result ≡ exactly (fields_shown S.shown self.now.variables self.now.left.now) }
    {
        (self.left.len(), Some(self.left.len()))
    }
}

impl<'a, S: ScalarValue> DoubleEndedIterator for Iter<'a, S> {
    ghost next_back_gives = { YieldsLastBy (view_shown_field S.shown) (λ s. fields_shown S.shown s.variables s.left.now) };

    fn next_back(&mut self) -> Option<ShownField<'a, S>> {
        let (last, others) = self.left.split_last()?;
        self.left = others;
        Some(shown_field(last, self.variables))
    }
}

impl<'a, S: ScalarValue> ExactSizeIterator for Iter<'a, S> {
    fn len(&self) -> usize {
        self.left.len()
    }
}

/// What is shown of a field.
#[tactic(auto, unfolding(crate::specs::ShownValues::shown_field, crate::specs::ShownValues::shown_at))]
fn shown_field<'a, S: ScalarValue>(
    written: &'a InputField<S>,
    variables: Option<&'a Variables<S>>,
) -> ShownField<'a, S>
    ensures { view_shown_field S.shown result ≡ field_shown S.shown variables.entry written.now }
{
    let name = Spanning {
        item: written.0.item.as_str(),
        span: &written.0.span,
    };
    let value = Spanning {
        item: shown_value(&written.1.item, variables),
        span: &written.1.span,
    };
    (name, value)
}
