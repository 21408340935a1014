//! Answers of a resolver's arms: objects and null, for which memory is not wanted, scalars, and errors with a code (sections 6.4.2 and
//! 6.4.4 of the Specification).

ghost use Rattle.std.specs.Prelude.{◌≡◌, IfOk, Ok, option_map};
ghost use Rattle.graphql_spec.specs.Resolvers as resolvers;
ghost use Rattle.graphql_spec.specs.Resolvers.{answered, nothing};
ghost use Rattle.juniper_values.specs.ResolvedView.{Answers};
ghost use Rattle.juniper_values.specs.declared.resolved.Resolved.{Node, Null};
ghost use Rattle.juniper_conversions.specs.ErrorView.{view_error};
ghost use Rattle.juniper_words.specs.Nodes.{object_or_null};
ghost use Rattle.juniper_words.specs.Replies.{boolean_reply, count_reply, error_with_code, fails_with_code, text_or_null, value_reply};

use crate::enums::EnumType;
use juniper_conversions::{FieldError, ResolveError};
use juniper_syntax::{Object, ScalarValue, Value};
use juniper_values::{Resolved, fails, int, text};
use std::alloc::{AllocError, Global};

/// What a resolver answers about objects that such nodes stand for.
pub type Answer<N, S> = Result<Resolved<N, S>, ResolveError<S>>;

/// An object, by the node that stands for it (3.6). It is answered whatever comes, so a step may end with it.
pub fn object<N, S: ScalarValue>(node: N) -> Answer<N, S>
    ensures answer { Answers S.shown result (answered (resolvers.node node)) }
    ensures exact { result ≡ Ok (Node node) }
{
    Ok(Resolved::Node(node))
}

/// Null (3.12). It is answered whatever comes, so a step may end with it.
pub fn null<N, S: ScalarValue>() -> Answer<N, S>
    ensures answer { Answers S.shown result (answered nothing) }
    ensures exact { result ≡ Ok Null }
{
    Ok(Resolved::Null)
}

/// An object, by the node that stands for it, or null where there is none (3.12).
pub fn object_or_null<N, S: ScalarValue>(node: Option<N>) -> Answer<N, S>
    ensures { Answers S.shown result (object_or_null node) }
{
    match node {
        Some(node) => object(node),
        None => null(),
    }
}

/// A Boolean (3.5.4): `"isClosed" => boolean(issue.is_closed)`.
pub fn boolean<N, S: ScalarValue>(value: bool) -> Answer<N, S>
    ensures { Answers S.shown result (boolean_reply value) }
{
    Ok(Resolved::Scalar(S::from_bool(value)))
}

/// A text, or null where there is none (3.5.3, 3.12): `"email" => text_or_null(alloc, user.email.as_deref())`.
pub fn text_or_null<N, S: ScalarValue>(alloc: Global, shown: Option<&str>) -> Answer<N, S>
    ensures { Answers S.shown result (text_or_null (option_map (λ t. t.now) shown.entry)) }
{
    match shown {
        Some(shown) => text(alloc, shown),
        None => null(),
    }
}

/// The value of an enum, by its name (3.9): `"state" => value(alloc, issue.state)`.
pub fn value<E: EnumType, N, S: ScalarValue>(alloc: Global, value: E) -> Answer<N, S>
    ensures { Answers S.shown result (value_reply E.name_of value) }
{
    text(alloc, value.value_name())
}

/// How many there are, as an Int (3.5.1): `"total" => count(alloc, tracker.issues.len())`. More than 2,147,483,647 are the error
/// `The number is no Int`.
pub fn count<N, S: ScalarValue>(alloc: Global, number: usize) -> Answer<N, S>
    ensures { Answers S.shown result (count_reply number) }
{
    match i32::try_from(number) {
        Ok(number) => int(number),
        Err(_) => fails(alloc, "The number is no Int"),
    }
}

/// An error of this message and this code, with which the field fails (6.4.4). An answer shows the code as
/// `"extensions": {"code": ..}` (7.1.2): `"email" => fails_with_code(alloc, "The address is not public", "FORBIDDEN")`.
pub fn fails_with_code<N, S: ScalarValue>(alloc: Global, message: &str, code: &str) -> Answer<N, S>
    ensures { Answers S.shown result (fails_with_code message.now code.now) }
{
    Err(ResolveError::Field(error_with_code(alloc, message, code)?))
}

/// The error of this message and this code.
pub(crate) fn error_with_code<S: ScalarValue>(
    alloc: Global,
    message: &str,
    code: &str,
) -> Result<FieldError<S>, AllocError>
    ensures { IfOk result (λ error. view_error S.shown error ≡ error_with_code message.now code.now) }
{
    let shown = S::from_text(String::from_str(alloc, code)?)?;
    let mut extensions = Object::with_capacity(alloc, 1)?;
    extensions.put_field(alloc, "code", Value::Scalar(shown))?;
    FieldError::new(alloc, message, Value::Object(extensions))
}
