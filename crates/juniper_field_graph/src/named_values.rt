//! Values with names: the fields of objects, and arguments (sections 2.6 and 2.9.8 of the Specification).

ghost use Rattle.std.specs.Prelude.{◌≡◌, option_map};
ghost use Rattle.juniper_field_graph.specs.NamedValues.{view_named};
ghost use Rattle.juniper_field_graph.specs.SameValues.{all_keyed, field_at};
ghost use Rattle.juniper_syntax.specs.InputView.{view_input};

use juniper_syntax::{InputValue, ScalarValue, Span, Spanning};
use std::convert::AsStr;

/// A value and its name, each with its place.
pub(crate) type Named<N, S> = (Spanning<N, Span>, Spanning<InputValue<S>, Span>);

/// The first value of this name, where there is one.
pub(crate) fn value_at<'b, N: AsStr, S: ScalarValue>(
    values: &'b [Named<N, S>],
    name: &str,
) -> Option<&'b InputValue<S>>
    ensures { option_map (λ v. view_input S.shown v.now) result ≡ field_at (view_named N.text S.shown values.now) name.now }
{
    for value in values {
        if name == value.0.item.as_str() {
            return Some(&value.1.item);
        }
    }
    None
}

/// Whether each name of the first is one of the second.
pub(crate) fn all_named<N: AsStr, M: AsStr, S: ScalarValue>(
    values: &[Named<N, S>],
    others: &[Named<M, S>],
) -> bool
    ensures { result ≡ all_keyed (view_named N.text S.shown values.now) (view_named M.text S.shown others.now) }
{
    for value in values {
        if value_at(others, value.0.item.as_str()).is_none() {
            return false;
        }
    }
    true
}
