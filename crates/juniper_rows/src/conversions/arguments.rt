//! What a resolver gets of its arguments (section 6.4.1 of the Specification).

use crate::fields::input_value;
use crate::kinds::unknown;
use indexmap::IndexMap;
use juniper_language::{DefaultScalarValue as Scalar, InputValue, Span, Spanning, Variables};
use juniper_values::{Arguments, FromInputValue, IntoFieldError, ResolveError};
use std::alloc::{AllocError, Global};
use std::fmt::Debug;

/// Arguments by their names.
type Given<'d> = IndexMap<&'d str, Spanning<InputValue<Scalar>, Span>>;

/// What is got of the argument `n` as the type of this name, an error by its message alone. The arguments are written as an object; the
/// variable `seven` is 7 and `null` is null, and an argument with another variable is missing.
pub fn told(alloc: Global, kind: &str, text: &str) -> Result<String, AllocError> {
    let arguments = Arguments::new(alloc, Some(given_by(alloc, text)?), None)?;
    match kind {
        "i32" => got::<i32>(alloc, &arguments),
        "Option<i32>" => got::<Option<i32>>(alloc, &arguments),
        "Vec<i32>" => got::<Vec<i32>>(alloc, &arguments),
        _ => unknown(alloc),
    }
}

/// What is got of `n` as this type.
fn got<T>(alloc: Global, arguments: &Arguments<'_, Scalar>) -> Result<String, AllocError>
where
    T: FromInputValue<Scalar> + Debug,
    T::Error: IntoFieldError<Scalar>,
{
    match arguments.get::<T>(alloc, "n") {
        Ok(found) => format!(in alloc; "{found:?}"),
        Err(ResolveError::Field(error)) => String::from_str(alloc, error.message()),
        Err(ResolveError::Memory) => Err(AllocError),
    }
}

/// The arguments of a text that is an object.
fn given_by<'d>(alloc: Global, text: &str) -> Result<Given<'d>, AllocError> {
    let variables = variables(alloc)?;
    let mut given = IndexMap::new(alloc);
    if let Some(InputValue::Object(fields)) = input_value(alloc, text) {
        for (name, value) in fields {
            put(alloc, &mut given, name.item.as_str(), value, &variables)?;
        }
    }
    Ok(given)
}

/// Puts in an argument, unless its variable has no value.
fn put<'d>(
    alloc: Global,
    given: &mut Given<'d>,
    name: &'d str,
    value: &Spanning<InputValue<Scalar>, Span>,
    variables: &Variables<Scalar>,
) -> Result<(), AllocError> {
    if let Some(item) = value.item.into_const(alloc, variables)? {
        drop(given.insert(name, Spanning::unlocated(item))?);
    }
    Ok(())
}

/// The variables that have values.
fn variables(alloc: Global) -> Result<Variables<Scalar>, AllocError> {
    let mut variables = Variables::new(alloc);
    let seven = InputValue::Scalar(Scalar::Int(7));
    drop(variables.insert(String::from_str(alloc, "seven")?, seven)?);
    drop(variables.insert(String::from_str(alloc, "null")?, InputValue::Null)?);
    Ok(variables)
}
