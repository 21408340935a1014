//! What values weigh: how many nodes they have, and how long their texts are. Nothing rests on it.

use juniper_syntax::{InputValue, ScalarValue, Span, Spanning, Variables};

/// So many bytes of a text weigh as much as a node.
const BYTES: usize = 32;

/// What is left of so much once what a value weighs with values for its variables is taken off; none, if it weighs more. It weighs one for each node, and one
/// for each 32 bytes of a text.
#[cycle(weight)]
pub(crate) fn left_of<S: ScalarValue>(
    allowed: usize,
    value: &InputValue<S>,
    variables: &Variables<S>,
) -> Option<usize> {
    match value {
        InputValue::Null => allowed.checked_sub(1),
        InputValue::Scalar(scalar) => allowed.checked_sub(weight_of_scalar(scalar)),
        InputValue::Enum(name) => allowed.checked_sub(weight_of_text(name.as_str())),
        InputValue::Variable(name) => left_of_variable(allowed, name.as_str(), variables),
        InputValue::List(items) => left_of_items(allowed, items, variables),
        InputValue::Object(fields) => left_of_fields(allowed, fields, variables),
    }
}

/// The same of a list with these items.
#[cycle(weight)]
fn left_of_items<S: ScalarValue>(
    allowed: usize,
    items: &[Spanning<InputValue<S>, Span>],
    variables: &Variables<S>,
) -> Option<usize> {
    let mut left = allowed.checked_sub(1)?;
    for item in items {
        left = left_of(left, &item.item, variables)?;
    }
    Some(left)
}

/// The same of an object with these fields.
#[cycle(weight)]
fn left_of_fields<S: ScalarValue>(
    allowed: usize,
    fields: &[(Spanning<String, Span>, Spanning<InputValue<S>, Span>)],
    variables: &Variables<S>,
) -> Option<usize> {
    let mut left = allowed.checked_sub(1)?;
    for field in fields {
        let behind = left.checked_sub(weight_of_text(field.0.item.as_str()))?;
        left = left_of(behind, &field.1.item, variables)?;
    }
    Some(left)
}

/// The same of the value of a variable, which holds none itself.
fn left_of_variable<S: ScalarValue>(
    allowed: usize,
    name: &str,
    variables: &Variables<S>,
) -> Option<usize> {
    match variables.get(name) {
        Some(value) => allowed.checked_sub(weight_of(value)),
        None => allowed.checked_sub(1),
    }
}

/// What a value without variables weighs.
#[cycle(constant)]
pub(crate) fn weight_of<S: ScalarValue>(value: &InputValue<S>) -> usize {
    match value {
        InputValue::Null => 1,
        InputValue::Scalar(scalar) => weight_of_scalar(scalar),
        InputValue::Enum(name) => weight_of_text(name.as_str()),
        InputValue::Variable(_) => 1,
        InputValue::List(items) => weight_of_items(items),
        InputValue::Object(fields) => weight_of_fields(fields),
    }
}

/// What a list with these items weighs.
#[cycle(constant)]
fn weight_of_items<S: ScalarValue>(items: &[Spanning<InputValue<S>, Span>]) -> usize {
    let mut weight: usize = 1;
    for item in items {
        weight = weight.saturating_add(weight_of(&item.item));
    }
    weight
}

/// What an object with these fields weighs.
#[cycle(constant)]
fn weight_of_fields<S: ScalarValue>(
    fields: &[(Spanning<String, Span>, Spanning<InputValue<S>, Span>)],
) -> usize {
    let mut weight: usize = 1;
    for field in fields {
        let key = weight_of_text(field.0.item.as_str());
        weight = weight
            .saturating_add(key)
            .saturating_add(weight_of(&field.1.item));
    }
    weight
}

/// What a scalar weighs.
fn weight_of_scalar<S: ScalarValue>(scalar: &S) -> usize {
    match scalar.try_to_str() {
        Some(text) => weight_of_text(text),
        None => 1,
    }
}

/// What a text weighs.
fn weight_of_text(text: &str) -> usize {
    (text.len() / BYTES).saturating_add(1)
}
