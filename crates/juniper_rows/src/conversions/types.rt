//! What input values are converted to at a type, and what is written of it.

use crate::fields::input_value;
use crate::kinds::unknown;
use juniper_language::{DefaultScalarValue as Scalar, InputValue};
use juniper_values::{FromInputValue, ID, IntoFieldError, Nullable, ToInputValue};
use std::alloc::{AllocError, Global};
use std::fmt::Debug;

/// What is asked of a conversion.
#[derive(Clone, Copy)]
pub enum Question {
    /// The answer, an error of a field by its message alone.
    Answer,
    /// The message of the error that its error becomes.
    Message,
    /// The input value that is made of the answer.
    Input,
}

/// What is told of a value at the type of this name, where `missing` is no value.
pub fn told(
    alloc: Global,
    question: Question,
    kind: &str,
    text: &str,
) -> Result<String, AllocError> {
    if text == "missing" {
        return told_at(alloc, question, kind, None);
    }
    match input_value(alloc, text) {
        Some(value) => told_at(alloc, question, kind, Some(value)),
        None => unknown(alloc),
    }
}

/// What is told at the type of this name.
fn told_at(
    alloc: Global,
    question: Question,
    kind: &str,
    value: Option<&InputValue<Scalar>>,
) -> Result<String, AllocError> {
    match kind {
        "bool" => told_of::<bool>(alloc, question, value),
        "String" => told_of::<String>(alloc, question, value),
        "ID" => told_of::<ID>(alloc, question, value),
        "Nullable<i32>" => told_of::<Nullable<i32>>(alloc, question, value),
        "Box<Nullable<i32>>" => told_of::<Box<Nullable<i32>>>(alloc, question, value),
        _ => told_at_array(alloc, question, kind, value),
    }
}

/// What is told at a type that is an array; of arrays of other types than `i32` mostly the answer alone.
fn told_at_array(
    alloc: Global,
    question: Question,
    kind: &str,
    value: Option<&InputValue<Scalar>>,
) -> Result<String, AllocError> {
    match kind {
        "[i32; 0]" => told_of::<[i32; 0]>(alloc, question, value),
        "[i32; 1]" => told_of::<[i32; 1]>(alloc, question, value),
        "[Option<i32>; 0]" => answered::<[Option<i32>; 0]>(alloc, value),
        "[Option<i32>; 1]" => answered::<[Option<i32>; 1]>(alloc, value),
        "[[i32; 1]; 1]" => answered::<[[i32; 1]; 1]>(alloc, value),
        "[i32; 3]" => told_of::<[i32; 3]>(alloc, question, value),
        "[Option<i32>; 3]" => told_of::<[Option<i32>; 3]>(alloc, question, value),
        "[[i32; 1]; 3]" => answered::<[[i32; 1]; 3]>(alloc, value),
        _ => told_at_wrapper(alloc, question, kind, value),
    }
}

/// What is told at a type that a simpler one is wrapped in.
fn told_at_wrapper(
    alloc: Global,
    question: Question,
    kind: &str,
    value: Option<&InputValue<Scalar>>,
) -> Result<String, AllocError> {
    match kind {
        "i32" | "Option<i32>" | "Vec<i32>" => told_around::<i32>(alloc, question, kind, value),
        "Vec<Option<i32>>" => told_around::<Option<i32>>(alloc, question, kind, value),
        "Option<Vec<i32>>" | "Vec<Vec<i32>>" => {
            told_around::<Vec<i32>>(alloc, question, kind, value)
        }
        "Option<[i32; 1]>" => answered::<Option<[i32; 1]>>(alloc, value),
        "Option<[Vec<i32>; 1]>" => answered::<Option<[Vec<i32>; 1]>>(alloc, value),
        "Option<[i32; 3]>" => told_around::<[i32; 3]>(alloc, question, kind, value),
        "Option<[Option<i32>; 3]>" => {
            told_around::<[Option<i32>; 3]>(alloc, question, kind, value)
        }
        "Option<Vec<Option<i32>>>" => {
            told_around::<Vec<Option<i32>>>(alloc, question, kind, value)
        }
        "Option<Vec<Vec<i32>>>" | "Vec<Vec<Vec<i32>>>" => {
            told_around::<Vec<Vec<i32>>>(alloc, question, kind, value)
        }
        _ => unknown(alloc),
    }
}

/// What is told at the type of this name, which wraps a `T` or is one.
fn told_around<T>(
    alloc: Global,
    question: Question,
    kind: &str,
    value: Option<&InputValue<Scalar>>,
) -> Result<String, AllocError>
where
    T: FromInputValue<Scalar> + ToInputValue<Scalar> + Debug,
    T::Error: IntoFieldError<Scalar> + Debug,
{
    match kind.split_once('<') {
        Some(("Option", _)) => told_of::<Option<T>>(alloc, question, value),
        Some(_) => told_of::<Vec<T>>(alloc, question, value),
        None => told_of::<T>(alloc, question, value),
    }
}

/// What is told at one type.
fn told_of<T>(
    alloc: Global,
    question: Question,
    value: Option<&InputValue<Scalar>>,
) -> Result<String, AllocError>
where
    T: FromInputValue<Scalar> + ToInputValue<Scalar> + Debug,
    T::Error: IntoFieldError<Scalar> + Debug,
{
    match question {
        Question::Answer => answered::<T>(alloc, value),
        Question::Message => message::<T>(alloc, value),
        Question::Input => written::<T>(alloc, value),
    }
}

/// The conversion of a value, or what stands for one that is not there.
fn converted<T: FromInputValue<Scalar>>(
    alloc: Global,
    value: Option<&InputValue<Scalar>>,
) -> Result<Result<T, T::Error>, AllocError> {
    match value {
        Some(value) => T::from_input_value(alloc, value),
        None => T::from_implicit_null(alloc),
    }
}

/// The answer of a conversion, an error of a field by its message alone.
fn answered<T>(alloc: Global, value: Option<&InputValue<Scalar>>) -> Result<String, AllocError>
where
    T: FromInputValue<Scalar> + Debug,
    T::Error: Debug,
{
    let answer = converted::<T>(alloc, value)?;
    by_message(alloc, format!(in alloc; "{answer:?}")?.as_str())
}

/// The line with each error of a field by its message alone.
fn by_message(alloc: Global, line: &str) -> Result<String, AllocError> {
    let line = line.replace(alloc, "FieldError { message: ", "")?;
    line.replace(alloc, ", extensions: Null }", "")
}

/// The message of the error that the conversion's error becomes.
fn message<T>(alloc: Global, value: Option<&InputValue<Scalar>>) -> Result<String, AllocError>
where
    T: FromInputValue<Scalar>,
    T::Error: IntoFieldError<Scalar>,
{
    match converted::<T>(alloc, value)? {
        Ok(_) => unknown(alloc),
        Err(error) => String::from_str(alloc, error.into_field_error(alloc)?.message()),
    }
}

/// The input value that is made of a reference to the answer.
fn written<T>(alloc: Global, value: Option<&InputValue<Scalar>>) -> Result<String, AllocError>
where
    T: FromInputValue<Scalar> + ToInputValue<Scalar>,
{
    match converted::<T>(alloc, value)? {
        Ok(answer) => {
            let written = ToInputValue::<Scalar>::to_input_value(&&answer, alloc)?;
            written.to_string(alloc)
        }
        Err(_) => unknown(alloc),
    }
}

/// The answer of the conversion of what is made of a value's answer, to the type of this name, or from the second to the first.
pub fn back(alloc: Global, kind: &str, text: &str) -> Result<String, AllocError> {
    let Some(value) = input_value(alloc, text) else {
        return unknown(alloc);
    };
    match kind {
        "String" => came_back::<String, String>(alloc, value),
        "i32" => came_back::<i32, i32>(alloc, value),
        "bool" => came_back::<bool, bool>(alloc, value),
        "i32 of Option<i32>" => came_back::<Option<i32>, i32>(alloc, value),
        _ => unknown(alloc),
    }
}

/// What comes back of a value that becomes a `T` and then an input value again, read as a `U`.
fn came_back<T, U>(alloc: Global, value: &InputValue<Scalar>) -> Result<String, AllocError>
where
    T: FromInputValue<Scalar> + ToInputValue<Scalar>,
    U: FromInputValue<Scalar> + Debug,
    U::Error: Debug,
{
    match converted::<T>(alloc, Some(value))? {
        Ok(answer) => {
            let input = answer.to_input_value(alloc)?;
            answered::<U>(alloc, Some(&input))
        }
        Err(_) => unknown(alloc),
    }
}
