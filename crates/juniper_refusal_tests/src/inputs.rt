//! Input values by their texts, and what turns with answers that can be shown come to.

use crate::turns::Turn;
use juniper_language::{
    DefaultScalarValue, Definition, Field, InputValue, Selection, parse_document_source,
};
use std::alloc::{AllocError, Global};
use std::fmt::Debug;

/// The scalars.
pub type Scalar = DefaultScalarValue;

/// The input values.
pub type Input = InputValue<Scalar>;

/// How a turn ended whose call had this outcome: its answer is shown as the text that is expected, or memory was wanting.
pub fn ending<A: Debug + Drop>(
    alloc: Global,
    outcome: Result<A, AllocError>,
    expected: &str,
) -> Turn {
    match outcome {
        Ok(answer) if is_shown(alloc, &answer, expected) => Turn::Answered,
        Ok(_) => Turn::Wrong,
        Err(_) => Turn::Refused,
    }
}

/// Whether an answer is shown as this text.
fn is_shown<A: Debug>(alloc: Global, answer: &A, expected: &str) -> bool {
    match format!(in alloc; "{answer:?}") {
        Ok(text) => text.as_str() == expected,
        Err(_) => false,
    }
}

/// The first field of a text that is a document. The document is never let go, since a test ends soon.
///
/// # Errors
/// That memory is wanting, or that there is none.
pub fn read_field<'d>(alloc: Global, text: &'d str) -> Result<&'d Field<'d, Scalar>, AllocError> {
    match parse_document_source::<Scalar>(alloc, text) {
        Ok(document) => first_field(document.leak()).ok_or(AllocError),
        Err(_) => Err(AllocError),
    }
}

/// The first field of the first definition, an operation.
fn first_field<'d>(definitions: &'d [Definition<'d, Scalar>]) -> Option<&'d Field<'d, Scalar>> {
    match definitions.first() {
        Some(Definition::Operation(operation)) => match operation.item.selection_set.first() {
            Some(Selection::Field(field)) => Some(&field.item),
            _ => None,
        },
        _ => None,
    }
}

/// The input value of a text that is one. Its document is never let go.
///
/// # Errors
/// That memory is wanting, or that there is none.
pub fn read_input<'d>(alloc: Global, text: &str) -> Result<&'d Input, AllocError> {
    let request = format!(in alloc; "{{ f(v: {text}) }}")?;
    let request: &'d String = Box::leak(Box::new(alloc, request)?);
    let field = read_field(alloc, request.as_str())?;
    first_argument(field).ok_or(AllocError)
}

/// The first argument of a field.
fn first_argument<'d>(field: &'d Field<'d, Scalar>) -> Option<&'d Input> {
    let arguments = field.arguments.as_ref()?;
    let (_, value) = arguments.item.items.first()?;
    Some(&value.item)
}
