//! Conversions between input values and the types of resolvers (sections 3.5 and 3.12 of the Specification).

ghost use Rattle.std.specs.Prelude.{◌≡◌, ◌⊎◌, IfOk, Result, codes, option_map, string_bytes};
ghost use Rattle.graphql_spec.specs.Constants.{Constant, null, meaning};
ghost use Rattle.juniper_syntax.specs.InputView.{view_input};
ghost use Rattle.juniper_conversions.specs.Conversions.{scalar_of, int_of, boolean_of, text_of, refusal_text};
ghost use Rattle.juniper_conversions.specs.Messages.{message_alone};
ghost use Rattle.juniper_conversions.specs.ErrorView.{view_error};

use crate::{FieldError, another_scalar, error_of_message};
use juniper_syntax::{InputValue, ScalarValue};
use std::alloc::{AllocError, Global};

/// A type that input values are converted to.
pub trait FromInputValue<S: ScalarValue>: Drop {
    /// Why a value has no conversion.
    type Error: Drop;

    /// What the conversion answers for a value of this meaning.
    ghost gives: { Constant → Result Self Self.Error → Type 0 };

    /// What the type answers where there is no value, if not what it answers for null.
    ghost gives_implicit: { Result Self Self.Error → Type 0 } = { λ answer. ⊥ };

    /// The conversion of a value; the outer error is that memory is refused.
    fn from_input_value(
        alloc: Global,
        value: &InputValue<S>,
    ) -> Result<Result<Self, Self::Error>, AllocError>
        ensures { IfOk result (λ answer. gives (meaning (view_input S.shown value.now)) answer) };

    /// What stands for a value that is not there: the conversion of null, unless the type has an answer of its own.
    fn from_implicit_null(alloc: Global) -> Result<Result<Self, Self::Error>, AllocError>
        ensures { IfOk result (λ answer. gives null answer ⊎ gives_implicit answer) }
    {
        Self::from_input_value(alloc, &InputValue::Null)
    }
}

/// A type that input values are made of.
pub trait ToInputValue<S: ScalarValue> {
    /// What the input value means.
    ghost input: { Self → Constant };

    /// The input value; an error where memory is refused.
    fn to_input_value(&self, alloc: Global) -> Result<InputValue<S>, AllocError>
        ensures { IfOk result (λ made. meaning (view_input S.shown made) ≡ input self.now) };
}

/// An Int (3.5.1).
impl<S: ScalarValue> FromInputValue<S> for i32 {
    ghost use Rattle.juniper_conversions.specs.Conversions.{GivesScalar};

    type Error = FieldError<S>;

    ghost gives = { GivesScalar (λ n. n) (view_error S.shown) (codes "Int") int_of };

    fn from_input_value(
        alloc: Global,
        value: &InputValue<S>,
    ) -> Result<Result<i32, FieldError<S>>, AllocError> {
        match int_of(value) {
            Some(int) => Ok(Ok(int)),
            None => Ok(Err(refused(alloc, "Int", value)?)),
        }
    }
}

impl<S: ScalarValue> ToInputValue<S> for i32 {
    ghost use Rattle.graphql_spec.specs.Constants.{scalar};
    ghost use Rattle.graphql_spec.specs.Shown.{int};

    ghost input = { λ n. scalar (int n) };

    fn to_input_value(&self, _alloc: Global) -> Result<InputValue<S>, AllocError> {
        Ok(InputValue::Scalar(S::from_int(*self)))
    }
}

/// A Boolean (3.5.4).
impl<S: ScalarValue> FromInputValue<S> for bool {
    ghost use Rattle.juniper_conversions.specs.Conversions.{GivesScalar};

    type Error = FieldError<S>;

    ghost gives = { GivesScalar (λ b. b) (view_error S.shown) (codes "Boolean") boolean_of };

    fn from_input_value(
        alloc: Global,
        value: &InputValue<S>,
    ) -> Result<Result<bool, FieldError<S>>, AllocError> {
        match boolean_of(value) {
            Some(boolean) => Ok(Ok(boolean)),
            None => Ok(Err(refused(alloc, "Boolean", value)?)),
        }
    }
}

impl<S: ScalarValue> ToInputValue<S> for bool {
    ghost use Rattle.graphql_spec.specs.Constants.{scalar};
    ghost use Rattle.graphql_spec.specs.Shown.{boolean};

    ghost input = { λ b. scalar (boolean b) };

    fn to_input_value(&self, _alloc: Global) -> Result<InputValue<S>, AllocError> {
        Ok(InputValue::Scalar(S::from_bool(*self)))
    }
}

/// A String (3.5.3).
impl<S: ScalarValue> FromInputValue<S> for String {
    ghost use Rattle.juniper_conversions.specs.Conversions.{GivesScalar};

    type Error = FieldError<S>;

    ghost gives = { GivesScalar string_bytes (view_error S.shown) (codes "String") text_of };

    fn from_input_value(
        alloc: Global,
        value: &InputValue<S>,
    ) -> Result<Result<String, FieldError<S>>, AllocError> {
        match text_of(value) {
            Some(text) => Ok(Ok(String::from_str(alloc, text)?)),
            None => Ok(Err(refused(alloc, "String", value)?)),
        }
    }
}

impl<S: ScalarValue> ToInputValue<S> for String {
    ghost use Rattle.graphql_spec.specs.Constants.{scalar};
    ghost use Rattle.graphql_spec.specs.Shown.{text};

    ghost input = { λ s. scalar (text (string_bytes s)) };

    fn to_input_value(&self, alloc: Global) -> Result<InputValue<S>, AllocError> {
        Ok(InputValue::Scalar(S::from_text(String::from_str(alloc, self.as_str())?)?))
    }
}

/// A nullable type (3.12): null is `None`, any other value is converted to the type inside.
impl<T: FromInputValue<S>, S: ScalarValue> FromInputValue<S> for Option<T> {
    ghost use Rattle.juniper_conversions.specs.Options.{GivesOption};

    type Error = T::Error;

    ghost gives = { GivesOption T.gives };

    fn from_input_value(
        alloc: Global,
        value: &InputValue<S>,
    ) -> Result<Result<Option<T>, T::Error>, AllocError> {
        if value.is_null() {
            return Ok(Ok(None));
        }
        match T::from_input_value(alloc, value)? {
            Ok(inner) => Ok(Ok(Some(inner))),
            Err(error) => Ok(Err(error)),
        }
    }
}

impl<T: ToInputValue<S>, S: ScalarValue> ToInputValue<S> for Option<T> {
    ghost use Rattle.juniper_conversions.specs.Options.{option_input};

    ghost input = { option_input T.input };

    fn to_input_value(&self, alloc: Global) -> Result<InputValue<S>, AllocError> {
        match self {
            Some(value) => value.to_input_value(alloc),
            None => Ok(InputValue::Null),
        }
    }
}

/// The scalar that a value is, if it is one.
pub(crate) fn scalar_of<S: ScalarValue>(value: &InputValue<S>) -> Option<&S>
    ensures { option_map (λ s. S.shown s.now) result ≡ scalar_of (meaning (view_input S.shown value.now)) }
{
    match value {
        InputValue::Null => None,
        InputValue::Scalar(scalar) => Some(scalar),
        InputValue::Enum(_) => None,
        InputValue::Variable(_) => None,
        InputValue::List(_) => None,
        InputValue::Object(_) => None,
    }
}

/// The Int that a value shows, if it shows one.
fn int_of<S: ScalarValue>(value: &InputValue<S>) -> Option<i32>
    ensures { result ≡ int_of (meaning (view_input S.shown value.now)) }
{
    match scalar_of(value) {
        Some(scalar) => scalar.try_to_int(),
        None => None,
    }
}

/// The Boolean that a value shows, if it shows one.
fn boolean_of<S: ScalarValue>(value: &InputValue<S>) -> Option<bool>
    ensures { result ≡ boolean_of (meaning (view_input S.shown value.now)) }
{
    match scalar_of(value) {
        Some(scalar) => scalar.try_to_bool(),
        None => None,
    }
}

/// The text that a value shows, if it shows one.
fn text_of<S: ScalarValue>(value: &InputValue<S>) -> Option<&str>
    ensures { option_map (λ s. s.now) result ≡ text_of (meaning (view_input S.shown value.now)) }
{
    match scalar_of(value) {
        Some(scalar) => scalar.try_to_str(),
        None => None,
    }
}

/// The error of a conversion to a scalar type, for a value that shows nothing of the kind.
pub(crate) fn refused<S: ScalarValue>(
    alloc: Global,
    kind: &str,
    value: &InputValue<S>,
) -> Result<FieldError<S>, AllocError>
    ensures { IfOk result (λ made. view_error S.shown made ≡ message_alone (refusal_text kind.now (meaning (view_input S.shown value.now)))) }
{
    let message = match value {
        InputValue::Null => String::from_str(alloc, "Expected GraphQL scalar, found: null")?,
        InputValue::Scalar(_) => another_scalar(alloc, kind)?,
        InputValue::Enum(_) => String::from_str(alloc, "Expected GraphQL scalar, found: enum")?,
        InputValue::Variable(_) => {
            String::from_str(alloc, "Expected GraphQL scalar, found: variable")?
        }
        InputValue::List(_) => String::from_str(alloc, "Expected GraphQL scalar, found: list")?,
        InputValue::Object(_) => {
            String::from_str(alloc, "Expected GraphQL scalar, found: object")?
        }
    };
    Ok(error_of_message(message))
}
