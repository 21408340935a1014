//! Values of answers: how they are written.

use super::piles::{Piled, made};
use crate::kinds::unknown;
use juniper_language::{DefaultScalarValue as Scalar, Object, ScalarValue, Value};
use std::alloc::{AllocError, Global};

/// How the value that words make is written.
pub fn told(alloc: Global, words: &str) -> Result<String, AllocError> {
    match made::<Value<Scalar>>(alloc, words)? {
        Some(value) => value.to_string(alloc),
        None => unknown(alloc),
    }
}

/// A value without parts, or with none yet; no value where the word is none of these.
fn simple(alloc: Global, word: &str) -> Result<Option<Value<Scalar>>, AllocError> {
    match word {
        "null" => Ok(Some(Value::Null)),
        "true" => Ok(Some(Value::Scalar(Scalar::Boolean(true)))),
        "false" => Ok(Some(Value::Scalar(Scalar::Boolean(false)))),
        "[]" => Ok(Some(Value::List(Vec::new(alloc)))),
        "{}" => Ok(Some(Value::Object(Object::with_capacity(alloc, 0)?))),
        _ => Ok(None),
    }
}

impl Piled for Value<Scalar> {
    fn leaf(alloc: Global, word: &str) -> Result<Option<Self>, AllocError> {
        if let Some(text) = word.strip_prefix('"') {
            let text = String::from_str(alloc, text)?;
            return Ok(Some(Value::Scalar(Scalar::from_text(text)?)));
        }
        match word.parse::<i32>() {
            Ok(number) => Ok(Some(Value::Scalar(Scalar::Int(number)))),
            Err(_) => simple(alloc, word),
        }
    }

    fn put_into(&mut self, alloc: Global, key: &str, item: Self) -> Result<(), AllocError> {
        match self {
            Value::List(items) => Ok(items.push(item)?),
            Value::Object(object) => object.put_field(alloc, key, item),
            Value::Null | Value::Scalar(_) => Ok(()),
        }
    }
}
