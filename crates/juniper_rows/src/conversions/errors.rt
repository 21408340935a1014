//! The errors of fields and of executions.

use crate::fields::input_value;
use crate::kinds::unknown;
use juniper_language::{
    DefaultScalarValue as Scalar, InputValue, ScalarValue, SourcePosition, Value,
};
use juniper_values::{ExecutionError, FieldError, IntoFieldError, PathPart};
use std::alloc::{AllocError, Global};
use std::borrow::CowStr;

/// The error of a field that is made of a text of the type of this name.
pub fn made(alloc: Global, kind: &str, text: &str) -> Result<String, AllocError> {
    match kind {
        "CowStr" => made_of(alloc, CowStr::Borrowed(text)),
        "&str" => made_of(alloc, text),
        "BoxedStr" => made_of(alloc, String::from_str(alloc, text)?.into_boxed_str()),
        "String" => made_of(alloc, String::from_str(alloc, text)?),
        _ => unknown(alloc),
    }
}

/// The error of a field that is made of something.
fn made_of<E: IntoFieldError<Scalar>>(alloc: Global, error: E) -> Result<String, AllocError> {
    said(alloc, &error.into_field_error(alloc)?)
}

/// The message of an error, and what more is said.
fn said(alloc: Global, error: &FieldError<Scalar>) -> Result<String, AllocError> {
    let message = error.message();
    let extensions = error.extensions();
    format!(in alloc; "{message}: {extensions:?}")
}

/// The error of a field with these extensions, whose message is an Int or a text; behind it whether its copy is another, or the error of a
/// field that it becomes.
pub fn field_error(alloc: Global, message: &str, more: &str) -> Result<String, AllocError> {
    let error = match message.parse::<i32>() {
        Ok(number) => FieldError::new(alloc, number, extensions(alloc, more)?)?,
        Err(_) => FieldError::new(alloc, message, extensions(alloc, more)?)?,
    };
    let mut text = said(alloc, &error)?;
    let copy = error.try_clone(alloc)?;
    if !are_equal(&copy, &error) {
        text.push_str(" and another copy")?;
    }
    let itself: FieldError<Scalar> = copy.into_field_error(alloc)?;
    if !are_equal(&itself, &error) {
        text.push_str(" and becomes another")?;
    }
    Ok(text)
}

/// The error of a field with this message, in the place of which a longer one is put.
pub fn mapped(alloc: Global, message: &str, more: &str) -> Result<String, AllocError> {
    let error = FieldError::new(alloc, message, extensions(alloc, more)?)?;
    let message = error.message();
    let longer = format!(in alloc; "outer: {message}")?;
    said(alloc, &error.map_message(|_| longer))
}

/// The extensions of a text that is a scalar; null of any other one.
fn extensions(alloc: Global, text: &str) -> Result<Value<Scalar>, AllocError> {
    match input_value(alloc, text) {
        Some(InputValue::Scalar(scalar)) => Ok(Value::Scalar(scalar.try_clone(alloc)?)),
        _ => Ok(Value::Null),
    }
}

/// Whether two values are equal, by an equivalence.
fn are_equal<T: Eq>(left: &T, right: &T) -> bool {
    left == right
}

/// Where an error of an execution is: its location, its path and its message; behind it whether its copy is another. A case that is one
/// word is the message of an error of the whole.
pub fn place(alloc: Global, case: &str) -> Result<String, AllocError> {
    let error = match listed(alloc, case)? {
        Some(error) => error,
        None => ExecutionError::at_origin(alloc, FieldError::new(alloc, case, Value::Null)?),
    };
    let location = error.location();
    let (index, line, column) = (location.index(), location.line(), location.column());
    let (path, message) = (error.path(), error.error().message());
    let mut text = format!(in alloc; "{index} {line} {column} {path:?} {message}")?;
    if !are_equal(&error.try_clone(alloc)?, &error) {
        text.push_str(" and another copy")?;
    }
    Ok(text)
}

/// How two errors are ordered, and whether they are equal.
pub fn order(alloc: Global, left: &str, right: &str) -> Result<String, AllocError> {
    let (Some(left), Some(right)) = (listed(alloc, left)?, listed(alloc, right)?) else {
        return unknown(alloc);
    };
    let order = left.compare(&right);
    let is_same = left == right;
    format!(in alloc; "{order:?}, {is_same}")
}

/// The error of a text `COLUMN PATH MESSAGE NUMBER`: its place in the first line, its path with dots, and a number for its extensions.
fn listed(alloc: Global, text: &str) -> Result<Option<ExecutionError<Scalar>>, AllocError> {
    let mut words = text.split(' ');
    let (Some(column), Some(path), Some(message), Some(number)) = (
        words.next(),
        words.next(),
        words.next(),
        words.next(),
    ) else {
        return Ok(None);
    };
    let column = column.parse::<usize>().unwrap_or(0);
    let number = number.parse::<i32>().unwrap_or(0);
    let error = FieldError::new(alloc, message, Value::Scalar(Scalar::Int(number)))?;
    let path = parts(alloc, path)?;
    let position = SourcePosition::new(column, 0, column);
    Ok(Some(ExecutionError::new(alloc, position, path.as_slice(), error)?))
}

/// The parts of a path: positions and keys.
fn parts<'p>(alloc: Global, path: &'p str) -> Result<Vec<PathPart<'p>>, AllocError> {
    let mut parts = Vec::new(alloc);
    for part in path.split('.') {
        parts.push(match part.parse::<usize>() {
            Ok(index) => PathPart::Index(index),
            Err(_) => PathPart::Key(part),
        })?;
    }
    Ok(parts)
}
