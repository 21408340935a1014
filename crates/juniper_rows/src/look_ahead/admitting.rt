//! Whether a field with directives is taken (section 6.3.2 of the Specification).

use crate::fields::first_field;
use crate::kinds::unknown;
use juniper_language::{DefaultScalarValue as Scalar, InputValue, Variables};
use juniper_lookahead::admits;
use std::alloc::{AllocError, Global};
use std::collections::HashMap;

/// Whether the field of a case `FIELD with VALUE` is taken, where `$c` has this value, or none.
pub fn told(alloc: Global, case: &str) -> Result<String, AllocError> {
    let Some((field, value)) = case.split_once(" with ") else {
        return unknown(alloc);
    };
    let variables = variables(alloc, value)?;
    let document = format!(in alloc; "{{ {field} }}")?;
    let Some(field) = first_field(alloc, document.as_str()) else {
        return unknown(alloc);
    };
    let is_taken = match &field.directives {
        Some(directives) => admits(Some(directives.as_slice()), &variables),
        None => admits(None, &variables),
    };
    is_taken.to_string(alloc)
}

/// The value of `$c` that a word tells.
fn variables(alloc: Global, word: &str) -> Result<Variables<Scalar>, AllocError> {
    let value = match word {
        "none" => return Ok(HashMap::new(alloc)),
        "true" => InputValue::Scalar(Scalar::Boolean(true)),
        "false" => InputValue::Scalar(Scalar::Boolean(false)),
        "1" => InputValue::Scalar(Scalar::Int(1)),
        _ => InputValue::Null,
    };
    let mut variables = HashMap::new(alloc);
    variables.insert(String::from_str(alloc, "c")?, value)?;
    Ok(variables)
}
