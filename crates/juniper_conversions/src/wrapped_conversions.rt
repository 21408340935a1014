//! Conversions between input values and boxes, references and [`Nullable`] (sections 2.9.5 and 3.12 of the
//! Specification).

ghost use Rattle.std.specs.Prelude.{◌≡◌, IfOk};

use crate::Nullable;
use crate::convert::{FromInputValue, ToInputValue};
use juniper_syntax::{InputValue, ScalarValue};
use std::alloc::{AllocError, Global};

/// A nullable type that tells a value that is left out from a null that is written (2.9.5): null is `ExplicitNull`, and
/// any other value is converted to the type inside.
impl<T: FromInputValue<S>, S: ScalarValue> FromInputValue<S> for Nullable<T> {
    ghost use Rattle.juniper_conversions.specs.WrappedConversions.{GivesNullable, GivesImplicit};

    type Error = T::Error;

    ghost gives = { GivesNullable T.gives };

    ghost gives_implicit = { GivesImplicit };

    fn from_input_value(
        alloc: Global,
        value: &InputValue<S>,
    ) -> Result<Result<Nullable<T>, T::Error>, AllocError> {
        if value.is_null() {
            return Ok(Ok(Nullable::ExplicitNull));
        }
        match T::from_input_value(alloc, value)? {
            Ok(inner) => Ok(Ok(Nullable::Some(inner))),
            Err(error) => Ok(Err(error)),
        }
    }

    /// `ImplicitNull`.
    fn from_implicit_null(_alloc: Global) -> Result<Result<Nullable<T>, T::Error>, AllocError>
        ensures { IfOk result (λ answer. GivesImplicit answer) }
    {
        Ok(Ok(Nullable::ImplicitNull))
    }
}

/// Both nulls are written as null.
impl<T: ToInputValue<S>, S: ScalarValue> ToInputValue<S> for Nullable<T> {
    ghost use Rattle.juniper_conversions.specs.WrappedConversions.{nullable_input};

    ghost input = { nullable_input T.input };

    fn to_input_value(&self, alloc: Global) -> Result<InputValue<S>, AllocError> {
        match self {
            Nullable::Some(value) => value.to_input_value(alloc),
            Nullable::ExplicitNull => Ok(InputValue::Null),
            Nullable::ImplicitNull => Ok(InputValue::Null),
        }
    }
}

/// A box goes as what it holds.
impl<T: FromInputValue<S>, S: ScalarValue> FromInputValue<S> for Box<T> {
    ghost use Rattle.juniper_conversions.specs.Conversions.{GivesBox};

    type Error = T::Error;

    ghost gives = { GivesBox T.gives };

    fn from_input_value(
        alloc: Global,
        value: &InputValue<S>,
    ) -> Result<Result<Box<T>, T::Error>, AllocError> {
        match T::from_input_value(alloc, value)? {
            Ok(inner) => Ok(Ok(Box::new(alloc, inner)?)),
            Err(error) => Ok(Err(error)),
        }
    }
}

impl<T: ToInputValue<S>, S: ScalarValue> ToInputValue<S> for Box<T> {
    ghost input = { λ boxed. T.input boxed.value };

    fn to_input_value(&self, alloc: Global) -> Result<InputValue<S>, AllocError> {
        (**self).to_input_value(alloc)
    }
}

/// A reference is written as what it refers to.
impl<T: ToInputValue<S>, S: ScalarValue> ToInputValue<S> for &T {
    ghost input = { λ reference. T.input reference.now };

    fn to_input_value(&self, alloc: Global) -> Result<InputValue<S>, AllocError> {
        T::to_input_value(*self, alloc)
    }
}
