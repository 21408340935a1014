//! Writes what look-ahead shows of values and of arguments, with the bytes where they stand. What is asked from both ends is `front` and
//! `back` so often, and the last answer is written.

use juniper_language::{DefaultScalarValue as Scalar, Span};
use juniper_lookahead::{
    LookAheadArgument, LookAheadList, LookAheadObject, LookAheadSelection, LookAheadValue,
};
use std::alloc::{AllocError, Global};

/// What a value shows; of a list and an object how much.
fn shown(alloc: Global, value: LookAheadValue<'_, Scalar>) -> Result<String, AllocError> {
    match value {
        LookAheadValue::Null => String::from_str(alloc, "null"),
        LookAheadValue::Scalar(scalar) => format!(in alloc; "{scalar:?}"),
        LookAheadValue::Enum(name) => String::from_str(alloc, name),
        LookAheadValue::List(list) => {
            let count = list.iter().len();
            format!(in alloc; "{count} items")
        }
        LookAheadValue::Object(object) => {
            let count = object.iter().len();
            format!(in alloc; "{count} fields")
        }
    }
}

/// A value and where it stands.
fn placed(
    alloc: Global,
    value: LookAheadValue<'_, Scalar>,
    span: &Span,
) -> Result<String, AllocError> {
    let shown = shown(alloc, value)?;
    let index = span.start.index();
    format!(in alloc; "{shown} at {index}")
}

/// A name and where it stands, with a value and where that stands.
fn named(alloc: Global, name: &str, span: &Span, value: &str) -> Result<String, AllocError> {
    let index = span.start.index();
    format!(in alloc; "{name} at {index} {value}")
}

/// What is written where nothing is.
fn none(alloc: Global) -> Result<String, AllocError> {
    String::from_str(alloc, "none")
}

/// An argument, if there is one.
pub fn argument(
    alloc: Global,
    argument: Option<LookAheadArgument<'_, '_, Scalar>>,
) -> Result<String, AllocError> {
    let Some(found) = argument else {
        return none(alloc);
    };
    let value = placed(alloc, found.value(), found.value_span())?;
    named(alloc, found.name(), found.name_span(), value.as_str())
}

/// An argument of a field; how many there are at first where that is asked, none where there are not any.
pub fn arguments(
    alloc: Global,
    selection: &LookAheadSelection<'_, '_, '_, Scalar>,
    sides: &str,
) -> Result<String, AllocError> {
    let mut arguments = selection.arguments();
    if sides == "count" {
        return if selection.has_arguments() {
            arguments.len().to_string(alloc)
        } else {
            none(alloc)
        };
    }
    let mut answer = none(alloc)?;
    for side in sides.split(' ') {
        answer = argument(
            alloc,
            if side == "front" {
                arguments.next()
            } else {
                arguments.next_back()
            },
        )?;
    }
    Ok(answer)
}

/// An item of a list.
pub fn items(
    alloc: Global,
    list: &LookAheadList<'_, Scalar>,
    sides: &str,
) -> Result<String, AllocError> {
    let mut items = list.iter();
    let mut answer = none(alloc)?;
    for side in sides.split(' ') {
        let item = if side == "front" {
            items.next()
        } else {
            items.next_back()
        };
        answer = match item {
            Some(item) => placed(alloc, item.item, item.span)?,
            None => none(alloc)?,
        };
    }
    Ok(answer)
}

/// A field of an object.
pub fn fields(
    alloc: Global,
    object: &LookAheadObject<'_, Scalar>,
    sides: &str,
) -> Result<String, AllocError> {
    let mut fields = object.iter();
    let mut answer = none(alloc)?;
    for side in sides.split(' ') {
        let field = if side == "front" {
            fields.next()
        } else {
            fields.next_back()
        };
        answer = match field {
            Some((name, value)) => {
                let value = placed(alloc, value.item, value.span)?;
                named(alloc, name.item, name.span, value.as_str())?
            }
            None => none(alloc)?,
        };
    }
    Ok(answer)
}
