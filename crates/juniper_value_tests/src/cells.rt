//! An input type of one's own reads input objects (section 3.10 of the Specification).

use crate::cell::Cell;
use juniper_syntax::{DefaultScalarValue, InputValue};
use juniper_values::FromInputValue;
use std::alloc::{AllocError, Global};
use std::test::Fail;

/// An Int.
fn int(value: i32) -> InputValue<DefaultScalarValue> {
    InputValue::Scalar(DefaultScalarValue::Int(value))
}

/// The cell that a value becomes, or the message of its error.
fn cell_of(alloc: Global, value: &InputValue<DefaultScalarValue>) -> Result<String, AllocError> {
    match Cell::from_input_value(alloc, value)? {
        Ok(cell) => format!(in alloc; "{} {}", cell.column, cell.row),
        Err(error) => String::from_str(alloc, error.message()),
    }
}

/// An object of these fields.
fn object_of(
    alloc: Global,
    fields: &[(&str, i32)],
) -> Result<InputValue<DefaultScalarValue>, AllocError> {
    let mut made = Vec::new(alloc);
    for (name, value) in fields {
        made.push((String::from_str(alloc, name)?, int(*value)))?;
    }
    InputValue::object(alloc, made)
}

#[test]
fn objects_become_cells(rt: HostRuntime) -> Result<(), Fail> {
    let alloc = rt.alloc();
    let whole = object_of(alloc, &[("row", 2), ("column", 1)])?;
    assert_eq!(rt; cell_of(alloc, &whole)?.as_str(), "1 2");
    let twice = object_of(alloc, &[("row", 2), ("column", 1), ("row", 3)])?;
    assert_eq!(rt; cell_of(alloc, &twice)?.as_str(), "1 2");
    let half = object_of(alloc, &[("row", 2)])?;
    assert_eq!(rt; cell_of(alloc, &half)?.as_str(), "Expected a cell");
    Ok(())
}

/// An object whose column is a text.
fn misread(alloc: Global) -> Result<InputValue<DefaultScalarValue>, AllocError> {
    let text = DefaultScalarValue::String(String::from_str(alloc, "x")?);
    let row = (String::from_str(alloc, "row")?, int(2));
    let column = (String::from_str(alloc, "column")?, InputValue::Scalar(text));
    InputValue::object(alloc, vec![in alloc; row, column]?)
}

#[test]
fn other_values_become_no_cells(rt: HostRuntime) -> Result<(), Fail> {
    let alloc = rt.alloc();
    let items = vec![in alloc; int(1), int(2)]?;
    let list = InputValue::list(alloc, items)?;
    assert_eq!(rt; list.to_string(alloc)?.as_str(), "[1, 2]");
    assert_eq!(rt; cell_of(alloc, &list)?.as_str(), "Expected a cell");
    assert_eq!(rt;
        cell_of(alloc, &misread(alloc)?)?.as_str(),
        "Expected a cell"
    );
    assert_eq!(rt;
        cell_of(alloc, &InputValue::Null)?.as_str(),
        "Expected a cell"
    );
    Ok(())
}
