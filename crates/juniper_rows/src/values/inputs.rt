//! Input values: how they are written, their copies, and what they are with values for their variables.

use super::piles::{Piled, made};
use crate::kinds::unknown;
use juniper_language::{
    DefaultScalarValue as Scalar, InputField, InputValue, ScalarValue, Spanning, Variables,
};
use std::alloc::{AllocError, Global};

/// How the value that words make is written, and how what it is where the variable `a` is 1: `=` where that is itself and it has no
/// variable, `none` where it has no value then. Behind that, whether its copy is another.
pub fn told(alloc: Global, words: &str) -> Result<String, AllocError> {
    let Some(value) = made::<InputValue<Scalar>>(alloc, words)? else {
        return unknown(alloc);
    };
    let constant = constant(alloc, &value)?;
    let mut text = format!(in alloc; "{value} => {constant}")?;
    if value.try_clone(alloc)? != value {
        text.push_str(" and another copy")?;
    }
    Ok(text)
}

/// What the value is where `a` is 1.
fn constant(alloc: Global, value: &InputValue<Scalar>) -> Result<String, AllocError> {
    let mut variables = Variables::new(alloc);
    let one = InputValue::Scalar(Scalar::Int(1));
    drop(variables.insert(String::from_str(alloc, "a")?, one)?);
    match value.into_const(alloc, &variables)? {
        None => String::from_str(alloc, "none"),
        Some(constant) => {
            if value.is_const() && constant == *value {
                String::from_str(alloc, "=")
            } else {
                constant.to_string(alloc)
            }
        }
    }
}

/// A value without parts, or with none yet.
fn simple(alloc: Global, word: &str) -> Result<InputValue<Scalar>, AllocError> {
    match word {
        "null" => Ok(InputValue::Null),
        "true" => Ok(InputValue::Scalar(Scalar::Boolean(true))),
        "false" => Ok(InputValue::Scalar(Scalar::Boolean(false))),
        "[]" => Ok(InputValue::List(Vec::new(alloc))),
        "{}" => Ok(InputValue::Object(Vec::new(alloc))),
        _ => Ok(InputValue::Enum(String::from_str(alloc, word)?)),
    }
}

/// The value that a word stands for: a text behind a quote, a variable, an Int, or a simple value.
fn leaf(alloc: Global, word: &str) -> Result<InputValue<Scalar>, AllocError> {
    if let Some(text) = word.strip_prefix('"') {
        let text = String::from_str(alloc, text)?;
        return Ok(InputValue::Scalar(Scalar::from_text(text)?));
    }
    if let Some(name) = word.strip_prefix('$') {
        return Ok(InputValue::Variable(String::from_str(alloc, name)?));
    }
    match word.parse::<i32>() {
        Ok(number) => Ok(InputValue::Scalar(Scalar::Int(number))),
        Err(_) => simple(alloc, word),
    }
}

/// A field of an object.
fn field(
    alloc: Global,
    key: &str,
    value: InputValue<Scalar>,
) -> Result<InputField<Scalar>, AllocError> {
    let key = String::from_str(alloc, key)?;
    Ok((Spanning::unlocated(key), Spanning::unlocated(value)))
}

impl Piled for InputValue<Scalar> {
    fn leaf(alloc: Global, word: &str) -> Result<Option<Self>, AllocError> {
        Ok(Some(leaf(alloc, word)?))
    }

    fn put_into(&mut self, alloc: Global, key: &str, item: Self) -> Result<(), AllocError> {
        match self {
            InputValue::List(items) => Ok(items.push(Spanning::unlocated(item))?),
            InputValue::Object(fields) => Ok(fields.push(field(alloc, key, item)?)?),
            InputValue::Null
            | InputValue::Scalar(_)
            | InputValue::Enum(_)
            | InputValue::Variable(_) => Ok(()),
        }
    }
}
