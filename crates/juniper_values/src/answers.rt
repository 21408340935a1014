//! The answers of a resolver's arms: texts, Ints, objects, null, errors and lists (section 6.4.2 of the Specification).

ghost use Rattle.std.specs.Prelude.{◌≡◌};
ghost use Rattle.graphql_spec.specs.Resolvers.{answered, nothing};
ghost use Rattle.graphql_spec.specs.Resolvers as resolvers;
ghost use Rattle.juniper_values.specs.Answered.{each_reply, fails_with, int_reply, int_sum, text_reply};
ghost use Rattle.juniper_values.specs.ResolvedView.{Answers};

use crate::into_resolvable::IntoResolvable;
use crate::resolved::Resolved;
use crate::{FieldError, ResolveError};
use juniper_syntax::{ScalarValue, Value};
use std::alloc::Global;

/// A text: a String, an ID, or the name of an enum's value (3.5.3, 3.5.5, 3.9).
pub fn text<N, S: ScalarValue>(alloc: Global, text: &str) -> Result<Resolved<N, S>, ResolveError<S>>
    ensures { Answers S.shown result (text_reply text.now) }
{
    Ok(Resolved::Scalar(S::from_text(String::from_str(alloc, text)?)?))
}

/// An Int (3.5.1).
pub fn int<N, S: ScalarValue>(value: i32) -> Result<Resolved<N, S>, ResolveError<S>>
    ensures { Answers S.shown result (int_reply value) }
{
    Ok(Resolved::Scalar(S::from_int(value)))
}

/// An object, by the node that stands for it (3.6).
pub fn object<N, S: ScalarValue>(node: N) -> Result<Resolved<N, S>, ResolveError<S>>
    ensures { Answers S.shown result (answered (resolvers.node node)) }
{
    Ok(Resolved::Node(node))
}

/// Null (3.12).
pub fn null<N, S: ScalarValue>() -> Result<Resolved<N, S>, ResolveError<S>>
    ensures { Answers S.shown result (answered nothing) }
{
    Ok(Resolved::Null)
}

/// An error of this message, with which the field fails (6.4.4).
pub fn fails<N, S: ScalarValue>(
    alloc: Global,
    message: &str,
) -> Result<Resolved<N, S>, ResolveError<S>>
    ensures { Answers S.shown result (fails_with message.now) }
{
    Err(ResolveError::Field(FieldError::new(alloc, message, Value::Null)?))
}

/// The list of what these answer, in order, or the error of the first that fails (3.11).
pub fn list<T: IntoResolvable<N, S> + Drop, N: Drop, S: ScalarValue, const K: usize>(
    alloc: Global,
    items: [T; K],
) -> Result<Resolved<N, S>, ResolveError<S>>
    ensures { Answers S.shown result (each_reply T.resolves items) }
{
    Vec::from_array(alloc, items)?.into_resolvable(alloc)
}

/// The sum of two Ints; `None` where it is no Int (3.5.1).
pub fn add(left: i32, right: i32) -> Option<i32>
    ensures { result ≡ int_sum left right }
{
    match left.checked_add(right) {
        Some(sum) => Some(sum),
        None => None,
    }
}

/// A text, copied (3.5.3).
impl<'t, N, S: ScalarValue> IntoResolvable<N, S> for &'t str {
    ghost resolves = { λ t. text_reply t.now };

    fn into_resolvable(self, alloc: Global) -> Result<Resolved<N, S>, ResolveError<S>> {
        text(alloc, self)
    }
}
