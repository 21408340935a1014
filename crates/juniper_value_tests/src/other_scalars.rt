//! A scalar type of one's own (section 3.5 of the Specification): conversions, errors and values with it.

use juniper_schema_text::OtherScalar;
use juniper_syntax::{DefaultScalarValue, InputValue, ScalarValue, SourcePosition, Value};
use juniper_values::PathPart::Key;
use juniper_values::{ExecutionError, FieldError, FromInputValue, IntoFieldError, ToInputValue};
use std::alloc::{AllocError, Global};
use std::cmp::Ordering;
use std::fmt::Debug;
use std::test::Fail;

/// The answer of the conversion of a scalar.
fn answered<T>(alloc: Global, scalar: OtherScalar) -> Result<String, AllocError>
where
    T: FromInputValue<OtherScalar> + Debug,
    T::Error: IntoFieldError<OtherScalar>,
{
    match T::from_input_value(alloc, &InputValue::Scalar(scalar))? {
        Ok(value) => format!(in alloc; "{value:?}"),
        Err(error) => String::from_str(alloc, error.into_field_error(alloc)?.message()),
    }
}

#[test]
fn scalars_are_converted(rt: HostRuntime) -> Result<(), Fail> {
    let alloc = rt.alloc();
    let seven = OtherScalar::Number(7);
    assert_eq!(rt; answered::<i32>(alloc, seven)?.as_str(), "7");
    let truth = OtherScalar::Flag(true);
    assert_eq!(rt; answered::<bool>(alloc, truth)?.as_str(), "true");
    let text = OtherScalar::Text(String::from_str(alloc, "q1")?);
    assert_eq!(rt; answered::<String>(alloc, text)?.as_str(), "\"q1\"");
    let seven = OtherScalar::Number(7);
    assert_eq!(rt; answered::<Option<i32>>(alloc, seven)?.as_str(), "Some(7)");
    let truth = OtherScalar::Flag(true);
    assert_eq!(rt;
        answered::<i32>(alloc, truth)?.as_str(),
        "Expected `Int`, found another scalar"
    );
    Ok(())
}

/// The input value of this scalar type that is made of a value.
fn made<T: ToInputValue<OtherScalar>>(alloc: Global, value: &T) -> Result<String, AllocError> {
    value.to_input_value(alloc)?.to_string(alloc)
}

#[test]
fn values_become_input_values(rt: HostRuntime) -> Result<(), Fail> {
    let alloc = rt.alloc();
    assert_eq!(rt; made(alloc, &42)?.as_str(), "42");
    assert_eq!(rt; made(alloc, &false)?.as_str(), "false");
    let text = String::from_str(alloc, "q1")?;
    assert_eq!(rt; made(alloc, &text)?.as_str(), "\"q1\"");
    let missing: Option<i32> = None;
    assert_eq!(rt; made(alloc, &missing)?.as_str(), "null");
    Ok(())
}

/// An error with one value of each kind for its extensions.
fn error_of_kinds(alloc: Global) -> Result<FieldError<OtherScalar>, AllocError> {
    let text = OtherScalar::from_text(String::from_str(alloc, "x")?)?;
    let items = vec![in alloc;
        Value::Scalar(text),
        Value::Scalar(OtherScalar::from_int(7)),
        Value::Scalar(OtherScalar::from_bool(true)),
        Value::Null,
    ]?;
    FieldError::new(alloc, "no", Value::List(items))
}

#[test]
fn errors_become_errors_with_other_scalars(rt: HostRuntime) -> Result<(), Fail> {
    let alloc = rt.alloc();
    let error: FieldError<DefaultScalarValue> = error_of_kinds(alloc)?.into_field_error(alloc)?;
    assert_eq!(rt; error.message(), "no");
    let extensions = error.extensions();
    assert_eq!(rt;
        extensions.to_string(alloc)?.as_str(),
        "[\"x\", 7, true, null]"
    );
    Ok(())
}

/// An error at a place of the first line.
fn listed(alloc: Global, column: usize) -> Result<ExecutionError<OtherScalar>, AllocError> {
    let error = FieldError::new(alloc, "no", Value::Null)?;
    let place = SourcePosition::new(column, 0, column);
    ExecutionError::new(alloc, place, &[Key("a")], error)
}

#[test]
fn errors_are_compared(rt: HostRuntime) -> Result<(), Fail> {
    let (first, second) = (listed(rt.alloc(), 1)?, listed(rt.alloc(), 2)?);
    assert_eq!(rt; first.compare(&second), Ordering::Less);
    assert!(rt; first != second);
    Ok(())
}

#[test]
fn values_are_written(rt: HostRuntime) -> Result<(), Fail> {
    let value = Value::List(vec![in rt.alloc();
        Value::Scalar(OtherScalar::Number(1)),
        Value::Null,
    ]?);
    assert_eq!(rt; value.to_string(rt.alloc())?.as_str(), "[1, null]");
    Ok(())
}
