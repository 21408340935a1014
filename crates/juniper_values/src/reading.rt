//! What resolvers read of their arguments: Ints, and values of enums by their names (sections 3.5.1, 3.9 and 6.4.1 of the
//! Specification).

ghost use Rattle.std.specs.Option.{option_and_then};
ghost use Rattle.std.specs.Prelude.{◌≡◌, Option};
ghost use Rattle.graphql_spec.specs.Constants.{find, meaning};
ghost use Rattle.graphql_spec.specs.Shown.{Name, shown_text};
ghost use Rattle.juniper_conversions.specs.ErrorView.{view_error};
ghost use Rattle.juniper_syntax.specs.InputView.{view_input};
ghost use Rattle.juniper_values.specs.ArgumentView.{view_arguments};
ghost use Rattle.juniper_values.specs.ArgumentsRead.{GivesNamed, Reads};
ghost use Rattle.juniper_values.specs.ArgumentsRead as read;

use crate::arguments::Arguments;
use juniper_conversions::{FieldError, FromInputValue, IntoFieldError, ResolveError};
use juniper_syntax::{InputValue, ScalarValue};
use std::alloc::{AllocError, Global};

/// An enum, by the names of its values (3.9).
pub trait EnumName {
    /// The value of each name that has one.
    ghost named: { Name → Option Self };

    /// The value of this name; `None` where no value has it.
    fn from_name(name: &str) -> Option<Self>
        ensures { result ≡ named name.now };
}

/// A value of an enum as it is converted from an input value: by the name of a value, or by the same text.
#[derive(Drop)]
pub struct NamedValue<T>(pub T);

impl<T: EnumName + Drop, S: ScalarValue> FromInputValue<S> for NamedValue<T> {
    type Error = FieldError<S>;

    ghost gives = { GivesNamed T.named (λ v. v.0) (view_error S.shown) };

    fn from_input_value(
        alloc: Global,
        value: &InputValue<S>,
    ) -> Result<Result<NamedValue<T>, FieldError<S>>, AllocError> {
        match enum_of::<T, S>(value) {
            Some(found) => Ok(Ok(NamedValue(found))),
            None => Ok(Err("Expected a value of the enum".into_field_error(alloc)?)),
        }
    }
}

/// The Int at this name; `None` where it is missing or null. Any other value is an error.
pub fn int_argument<S: ScalarValue>(
    alloc: Global,
    arguments: &Arguments<'_, S>,
    name: &str,
) -> Result<Option<i32>, ResolveError<S>>
    ensures { Reads S.shown result (read.int_argument (find name.now (view_arguments S.shown arguments.now))) }
{
    let value: Option<Option<i32>> = arguments.get(alloc, name)?;
    match value {
        None => Ok(None),
        Some(value) => Ok(value),
    }
}

/// The enum's value at this name; `None` where it is missing or null. Any other value is an error.
pub fn enum_argument<T: EnumName + Drop, S: ScalarValue>(
    alloc: Global,
    arguments: &Arguments<'_, S>,
    name: &str,
) -> Result<Option<T>, ResolveError<S>>
    ensures { Reads S.shown result (read.enum_argument T.named (find name.now (view_arguments S.shown arguments.now))) }
{
    let value: Option<Option<NamedValue<T>>> = arguments.get(alloc, name)?;
    match value {
        None => Ok(None),
        Some(None) => Ok(None),
        Some(Some(NamedValue(found))) => Ok(Some(found)),
    }
}

/// The enum's value that this names, as an enum's value or as a text.
fn enum_of<T: EnumName, S: ScalarValue>(value: &InputValue<S>) -> Option<T>
    ensures { result ≡ read.enum_of T.named (meaning (view_input S.shown value.now)) }
{
    match value {
        InputValue::Enum(name) => T::from_name(name.as_str()),
        InputValue::Scalar(scalar) => enum_of_text::<T, S>(scalar),
        InputValue::Null => None,
        InputValue::Variable(_) => None,
        InputValue::List(_) => None,
        InputValue::Object(_) => None,
    }
}

/// The enum's value that a text names.
fn enum_of_text<T: EnumName, S: ScalarValue>(scalar: &S) -> Option<T>
    ensures { result ≡ option_and_then T.named (shown_text (S.shown scalar.now)) }
{
    match scalar.try_to_str() {
        Some(name) => T::from_name(name),
        None => None,
    }
}
