//! Conversions between scalars and the types of resolvers (section 3.5 of the Specification).

ghost use Rattle.std.specs.Prelude.{◌≡◌, ◌++◌, IfOk, Result, codes, string_bytes};
ghost use Rattle.graphql_spec.specs.Constants.{scalar};
ghost use Rattle.graphql_spec.specs.Shown.{Shown};
ghost use Rattle.juniper_conversions.specs.Conversions.{GivesScalar, int_of, boolean_of, text_of};
ghost use Rattle.juniper_conversions.specs.Messages.{message_alone};
ghost use Rattle.juniper_conversions.specs.ErrorView.{view_error};

use crate::{FieldError, error_of_message};
use juniper_syntax::ScalarValue;
use std::alloc::{AllocError, Global};

/// A type that scalars are converted to; it may borrow from the scalar.
pub trait FromScalarValue<'s, S: ScalarValue>: Drop {
    /// Why a scalar has no conversion.
    type Error: Drop;

    /// What the conversion answers for a scalar that shows this.
    ghost gives: { Shown → Result Self Self.Error → Type 0 };

    /// The conversion of a scalar; the outer error is that memory is refused.
    fn from_scalar_value(
        alloc: Global,
        value: &'s S,
    ) -> Result<Result<Self, Self::Error>, AllocError>
        ensures { IfOk result (λ answer. gives (S.shown value.now) answer) };
}

/// A type that scalars are made of.
pub trait ToScalarValue<S: ScalarValue> {
    /// What the scalar shows.
    ghost shows: { Self → Shown };

    /// The scalar; an error where memory is refused.
    fn to_scalar_value(&self, alloc: Global) -> Result<S, AllocError>
        ensures { IfOk result (λ made. S.shown made ≡ shows self.now) };
}

/// An Int (3.5.1).
impl<'s, S: ScalarValue> FromScalarValue<'s, S> for i32 {
    type Error = FieldError<S>;

    ghost gives = { λ s. GivesScalar (λ n. n) (view_error S.shown) (codes "Int") int_of (scalar s) };

    fn from_scalar_value(
        alloc: Global,
        value: &'s S,
    ) -> Result<Result<i32, FieldError<S>>, AllocError> {
        match value.try_to_int() {
            Some(int) => Ok(Ok(int)),
            None => Ok(Err(refused_scalar(alloc, "Int")?)),
        }
    }
}

impl<S: ScalarValue> ToScalarValue<S> for i32 {
    ghost use Rattle.graphql_spec.specs.Shown.{int};

    ghost shows = { int };

    fn to_scalar_value(&self, _alloc: Global) -> Result<S, AllocError> {
        Ok(S::from_int(*self))
    }
}

/// A Boolean (3.5.4).
impl<'s, S: ScalarValue> FromScalarValue<'s, S> for bool {
    type Error = FieldError<S>;

    ghost gives = { λ s. GivesScalar (λ b. b) (view_error S.shown) (codes "Boolean") boolean_of (scalar s) };

    fn from_scalar_value(
        alloc: Global,
        value: &'s S,
    ) -> Result<Result<bool, FieldError<S>>, AllocError> {
        match value.try_to_bool() {
            Some(boolean) => Ok(Ok(boolean)),
            None => Ok(Err(refused_scalar(alloc, "Boolean")?)),
        }
    }
}

impl<S: ScalarValue> ToScalarValue<S> for bool {
    ghost use Rattle.graphql_spec.specs.Shown.{boolean};

    ghost shows = { boolean };

    fn to_scalar_value(&self, _alloc: Global) -> Result<S, AllocError> {
        Ok(S::from_bool(*self))
    }
}

/// A String (3.5.3), in memory of its own.
impl<'s, S: ScalarValue> FromScalarValue<'s, S> for String {
    type Error = FieldError<S>;

    ghost gives = { λ s. GivesScalar string_bytes (view_error S.shown) (codes "String") text_of (scalar s) };

    fn from_scalar_value(
        alloc: Global,
        value: &'s S,
    ) -> Result<Result<String, FieldError<S>>, AllocError> {
        match value.try_to_str() {
            Some(text) => Ok(Ok(String::from_str(alloc, text)?)),
            None => Ok(Err(refused_scalar(alloc, "String")?)),
        }
    }
}

impl<S: ScalarValue> ToScalarValue<S> for String {
    ghost use Rattle.graphql_spec.specs.Shown.{text};

    ghost shows = { λ s. text (string_bytes s) };

    fn to_scalar_value(&self, alloc: Global) -> Result<S, AllocError> {
        S::from_text(String::from_str(alloc, self.as_str())?)
    }
}

/// A String (3.5.3), lent by the scalar.
impl<'s, S: ScalarValue> FromScalarValue<'s, S> for &'s str {
    type Error = FieldError<S>;

    ghost gives = { λ s. GivesScalar (λ t. t.now) (view_error S.shown) (codes "String") text_of (scalar s) };

    fn from_scalar_value(
        alloc: Global,
        value: &'s S,
    ) -> Result<Result<&'s str, FieldError<S>>, AllocError> {
        match value.try_to_str() {
            Some(text) => Ok(Ok(text)),
            None => Ok(Err(refused_scalar(alloc, "String")?)),
        }
    }
}

/// A box: what the type inside answers.
impl<'s, T: FromScalarValue<'s, S>, S: ScalarValue> FromScalarValue<'s, S> for Box<T> {
    ghost use Rattle.juniper_conversions.specs.Conversions.{GivesBox};

    type Error = T::Error;

    ghost gives = { GivesBox T.gives };

    fn from_scalar_value(
        alloc: Global,
        value: &'s S,
    ) -> Result<Result<Box<T>, T::Error>, AllocError> {
        match T::from_scalar_value(alloc, value)? {
            Ok(inner) => Ok(Ok(Box::new(alloc, inner)?)),
            Err(error) => Ok(Err(error)),
        }
    }
}

impl<T: ToScalarValue<S>, S: ScalarValue> ToScalarValue<S> for Box<T> {
    ghost shows = { λ boxed. T.shows boxed.value };

    fn to_scalar_value(&self, alloc: Global) -> Result<S, AllocError> {
        self.as_ref().to_scalar_value(alloc)
    }
}

/// A reference: what the type behind it makes.
impl<T: ToScalarValue<S>, S: ScalarValue> ToScalarValue<S> for &T {
    ghost shows = { λ lent. T.shows lent.now };

    fn to_scalar_value(&self, alloc: Global) -> Result<S, AllocError> {
        (**self).to_scalar_value(alloc)
    }
}

/// The error of a conversion, for a scalar of another kind.
pub(crate) fn refused_scalar<S: ScalarValue>(
    alloc: Global,
    kind: &str,
) -> Result<FieldError<S>, AllocError>
    ensures { IfOk result (λ made. view_error S.shown made ≡ message_alone (codes "Expected `" ++ kind.now ++ codes "`, found another scalar")) }
{
    Ok(error_of_message(another_scalar(alloc, kind)?))
}

/// What is said of a scalar of another kind than this.
pub fn another_scalar(alloc: Global, kind: &str) -> Result<String, AllocError>
    ensures { IfOk result (λ text. string_bytes text ≡ codes "Expected `" ++ kind.now ++ codes "`, found another scalar") }
{
    format!(in alloc; "Expected `{kind}`, found another scalar")
}
