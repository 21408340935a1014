//! Conversions of scalars alone.

use crate::fields::input_value;
use crate::kinds::unknown;
use juniper_language::{DefaultScalarValue as Scalar, InputValue};
use juniper_values::{FieldError, FromScalarValue, ID, ToScalarValue};
use std::alloc::{AllocError, Global};
use std::fmt::Debug;

/// The scalar of a text, if it is one.
fn scalar<'t>(alloc: Global, text: &str) -> Option<&'t Scalar> {
    match input_value(alloc, text)? {
        InputValue::Scalar(scalar) => Some(scalar),
        _ => None,
    }
}

/// What is read of a scalar at the type of this name, an error by its message alone.
pub fn read(alloc: Global, kind: &str, text: &str) -> Result<String, AllocError> {
    let Some(scalar) = scalar(alloc, text) else {
        return unknown(alloc);
    };
    match kind {
        "i32" => read_as::<i32>(alloc, scalar),
        "bool" => read_as::<bool>(alloc, scalar),
        "String" => read_as::<String>(alloc, scalar),
        "&str" => read_as::<&str>(alloc, scalar),
        "ID" => read_as::<ID>(alloc, scalar),
        "Box<i32>" => read_as::<Box<i32>>(alloc, scalar),
        _ => unknown(alloc),
    }
}

/// A scalar as a type of its own, an error by its message alone.
fn read_as<'s, T>(alloc: Global, scalar: &'s Scalar) -> Result<String, AllocError>
where
    T: FromScalarValue<'s, Scalar, Error = FieldError<Scalar>> + Debug,
{
    match T::from_scalar_value(alloc, scalar)? {
        Ok(value) => format!(in alloc; "{value:?}"),
        Err(error) => String::from_str(alloc, error.message()),
    }
}

/// The scalar that is made of what is read of a scalar at the type of this name; at `&i32` that of a reference to it.
pub fn made(alloc: Global, kind: &str, text: &str) -> Result<String, AllocError> {
    let Some(scalar) = scalar(alloc, text) else {
        return unknown(alloc);
    };
    match kind {
        "i32" => made_of::<i32>(alloc, scalar),
        "&i32" => made_of_reference(alloc, scalar),
        "Box<i32>" => made_of::<Box<i32>>(alloc, scalar),
        "bool" => made_of::<bool>(alloc, scalar),
        "String" => made_of::<String>(alloc, scalar),
        "ID" => made_of::<ID>(alloc, scalar),
        _ => unknown(alloc),
    }
}

/// The scalar that is made of a value of this type.
fn made_of<'s, T>(alloc: Global, scalar: &'s Scalar) -> Result<String, AllocError>
where
    T: FromScalarValue<'s, Scalar, Error = FieldError<Scalar>> + ToScalarValue<Scalar>,
{
    match T::from_scalar_value(alloc, scalar)? {
        Ok(value) => shown(alloc, &value),
        Err(error) => String::from_str(alloc, error.message()),
    }
}

/// The scalar that is made of a reference to an Int.
fn made_of_reference(alloc: Global, scalar: &Scalar) -> Result<String, AllocError> {
    match scalar {
        Scalar::Int(number) => shown(alloc, &number),
        Scalar::String(_) | Scalar::Boolean(_) => unknown(alloc),
    }
}

/// The scalar that a value makes.
fn shown<T: ToScalarValue<Scalar>>(alloc: Global, value: &T) -> Result<String, AllocError> {
    let scalar = value.to_scalar_value(alloc)?;
    format!(in alloc; "{scalar:?}")
}
