//! Why a value is not converted to a list.

ghost use Rattle.juniper_conversions.specs.ConversionErrors.{vec_error, array_error};

use crate::convert::FromInputValue;
use crate::{FieldError, IntoFieldError};
use juniper_syntax::ScalarValue;
use std::alloc::{AllocError, Global};

/// Why a value has no conversion to a `Vec` (3.11).
#[derive(Drop)]
#[derive_where(Debug, Eq, PartialEq; T::Error)]
pub enum FromInputValueVecError<T: FromInputValue<S>, S: ScalarValue> {
    /// The value is null, and not a list.
    Null,
    /// The first item that has no conversion, with its error.
    Item(T::Error),
}

/// Why a value has no conversion to an array of a fixed size (3.11).
#[derive(Drop)]
#[derive_where(Debug, Eq, PartialEq; T::Error)]
pub enum FromInputValueArrayError<T: FromInputValue<S>, S: ScalarValue> {
    /// The value is null, and not a list.
    Null,
    /// The list has another count of items than the array.
    WrongCount {
        /// How many items there are.
        actual: usize,
        /// How many items the array has.
        expected: usize,
    },
    /// The first item that has no conversion, with its error.
    Item(T::Error),
}

/// The error of a message of its own, or what the error of the item becomes.
impl<T: FromInputValue<S>, S: ScalarValue> IntoFieldError<S> for FromInputValueVecError<T, S>
where
    T::Error: IntoFieldError<S>,
{
    ghost becomes = { vec_error T.Error.becomes };

    fn into_field_error(self, alloc: Global) -> Result<FieldError<S>, AllocError> {
        match self {
            FromInputValueVecError::Null => {
                "Failed to convert into `Vec`: Value cannot be `null`".into_field_error(alloc)
            }
            FromInputValueVecError::Item(error) => error.into_field_error(alloc),
        }
    }
}

/// The error of a message of its own, or what the error of the item becomes.
impl<T: FromInputValue<S>, S: ScalarValue> IntoFieldError<S> for FromInputValueArrayError<T, S>
where
    T::Error: IntoFieldError<S>,
{
    ghost becomes = { array_error T.Error.becomes };

    fn into_field_error(self, alloc: Global) -> Result<FieldError<S>, AllocError> {
        match self {
            FromInputValueArrayError::Null => {
                "Failed to convert into exact-size array: Value cannot be `null`".into_field_error(
                    alloc,
                )
            }
            FromInputValueArrayError::WrongCount { actual, expected } => format!(in alloc;
                "Failed to convert into exact-size array: wrong elements count: {actual} instead of {expected}"
            )?.into_field_error(alloc),
            FromInputValueArrayError::Item(error) => error.into_field_error(alloc),
        }
    }
}
