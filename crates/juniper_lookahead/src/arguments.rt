//! The arguments of a field, as look-ahead shows them.

ghost use Rattle.std.specs.Prelude.{◌≡◌, ◌==◌, not, length, map, option_map, IfSome};
ghost use Rattle.std.specs.Iterator.{YieldsFirstBy, YieldsLastBy, item_count, UpTo};
ghost use Rattle.std.specs.Iterator.SizeHint.{IsWithinCount};
ghost use Rattle.std.specs.Str.{bytes_eq};
ghost use Rattle.std.specs.Slice.Iter.{iter_rest};
ghost use Rattle.graphql_spec.specs.Documents.{written};
ghost use Rattle.juniper_syntax.specs.Positions.{view_span};
ghost use Rattle.juniper_syntax.specs.DocumentView.{view_argument, view_arguments};
ghost use Rattle.juniper_lookahead.specs.ShownValues.{first_named};
ghost use Rattle.juniper_lookahead.specs.SelectionView.{view_selection};
ghost use Rattle.juniper_lookahead.specs.ValueView.{exactly, seen_arguments, view_look, view_look_argument, argument_shown, arguments_shown};

use crate::argument::LookAheadArgument;
use crate::selection::LookAheadSelection;
use crate::showing::shown_value;
use crate::values::LookAheadValue;
use juniper_syntax::ast::Arguments;
use juniper_syntax::{ScalarValue, Span, Variables, WrittenArgument};
use std::slice;

impl<'r, 'a, S: ScalarValue> LookAheadArgument<'r, 'a, S> {
    /// The name.
    pub fn name(&self) -> &'a str
        ensures { result.now ≡ (view_look_argument S.shown self.now).name.item }
    {
        self.name.item
    }

    /// Where the name stands.
    pub fn name_span(&self) -> &'r Span
        ensures { view_span result.now ≡ (view_look_argument S.shown self.now).name.span }
    {
        &self.name.span
    }

    /// The value, in which variables are their values.
    #[tactic(auto, unfolding(crate::specs::ShownValues::shown_at))]
    pub fn value(&self) -> LookAheadValue<'r, S>
        ensures { view_look S.shown result ≡ (view_look_argument S.shown self.now).value.item }
    {
        shown_value(&self.value.item, Some(self.variables))
    }

    /// Where the value stands.
    #[tactic(auto, unfolding(crate::specs::ShownValues::shown_at))]
    pub fn value_span(&self) -> &'r Span
        ensures { view_span result.now ≡ (view_look_argument S.shown self.now).value.span }
    {
        &self.value.span
    }
}

/// The arguments of a field, from both ends. It is seen as those that are left.
#[derive(Drop)]
pub struct ArgumentsIter<'r, 'a, S> {
    left: slice::Iter<'r, WrittenArgument<'a, S>>,
    variables: &'r Variables<S>,
}

impl<'r, 'a, S: ScalarValue> Iterator for ArgumentsIter<'r, 'a, S> {
    type Item = LookAheadArgument<'r, 'a, S>;

    ghost next_gives = { YieldsFirstBy (view_look_argument S.shown) (λ s. arguments_shown S.shown s.variables.now (iter_rest s.left)) };

    ghost remaining = { item_count (λ s. arguments_shown S.shown s.variables.now (iter_rest s.left)) };

    fn next(&mut self) -> Option<LookAheadArgument<'r, 'a, S>> {
        let first = self.left.next()?;
        Some(look_argument(first, self.variables))
    }

    fn size_hint(&self) -> (usize, Option<usize>)
        ensures lower { IsWithinCount result.0 (item_count (λ s. arguments_shown S.shown s.variables.now (iter_rest s.left)) self.now) }
        ensures upper { IfSome result.1 (UpTo (item_count (λ s. arguments_shown S.shown s.variables.now (iter_rest s.left)) self.now)) }
        ensures exact { result ≡ exactly (arguments_shown S.shown self.now.variables.now (iter_rest self.now.left)) }
    {
        (self.left.len(), Some(self.left.len()))
    }
}

impl<'r, 'a, S: ScalarValue> DoubleEndedIterator for ArgumentsIter<'r, 'a, S> {
    ghost next_back_gives = { YieldsLastBy (view_look_argument S.shown) (λ s. arguments_shown S.shown s.variables.now (iter_rest s.left)) };

    fn next_back(&mut self) -> Option<LookAheadArgument<'r, 'a, S>> {
        let last = self.left.next_back()?;
        Some(look_argument(last, self.variables))
    }
}

impl<'r, 'a, S: ScalarValue> ExactSizeIterator for ArgumentsIter<'r, 'a, S> {
    fn len(&self) -> usize {
        self.left.len()
    }
}

impl<'r, 'd, 'a, S: ScalarValue> LookAheadSelection<'r, 'd, 'a, S> {
    /// Whether any arguments are written (2.6).
    pub fn has_arguments(&self) -> bool
        ensures { result ≡ not (length (written (view_selection self.now).head.arguments) == 0) }
    {
        let field = self.field;
        !Arguments::written(&field.arguments).is_empty()
    }

    /// The arguments that are written, in order (2.6), with the values of their variables.
    pub fn arguments(&self) -> ArgumentsIter<'r, 'a, S>
        ensures { arguments_shown S.shown result.variables.now (iter_rest result.left) ≡ seen_arguments self.now }
    {
        let field = self.field;
        ArgumentsIter {
            left: Arguments::written(&field.arguments).iter(),
            variables: self.variables,
        }
    }

    /// The first argument of the name, where one is written.
    pub fn argument(&self, name: &str) -> Option<LookAheadArgument<'r, 'a, S>>
        ensures { option_map (view_look_argument S.shown) result ≡ first_named name.now (seen_arguments self.now) }
    {
        for argument in self.arguments() {
            if is_named(&argument, name) {
                return Some(argument);
            }
        }
        None
    }
}

/// An argument, with the values of variables.
#[tactic(auto, unfolding(crate::specs::ShownValues::shown_argument))]
fn look_argument<'r, 'a, S: ScalarValue>(
    written: &'r WrittenArgument<'a, S>,
    variables: &'r Variables<S>,
) -> LookAheadArgument<'r, 'a, S>
    ensures { view_look_argument S.shown result ≡ argument_shown S.shown variables.now written.now }
{
    LookAheadArgument {
        name: &written.0,
        value: &written.1,
        variables,
    }
}

/// Whether an argument has the name.
fn is_named<'r, 'a, S: ScalarValue>(argument: &LookAheadArgument<'r, 'a, S>, name: &str) -> bool
    ensures { result ≡ bytes_eq (view_look_argument S.shown argument.now).name.item name.now }
{
    argument.name() == name
}
