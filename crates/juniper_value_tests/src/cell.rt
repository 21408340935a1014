//! An input type of one's own: an input object (section 3.10 of the Specification) that becomes a struct.

ghost use Rattle.std.specs.Prelude.{◌≡◌, option_map};
ghost use Rattle.graphql_spec.specs.Constants.{find, meaning, members};
ghost use Rattle.juniper_syntax.specs.InputView.{view_fields, view_input};
ghost use Rattle.juniper_conversions.specs.Conversions.{int_of};
ghost use Rattle.juniper_conversions.specs.ErrorView.{view_error};
ghost use Rattle.juniper_value_tests.specs.Cells.{GivesCell};
ghost use Rattle.juniper_value_tests.specs.Cells as cells;

use juniper_syntax::{InputValue, ScalarValue, Span, Spanning};
use juniper_values::{FieldError, FromInputValue, IntoFieldError};
use std::alloc::{AllocError, Global};

/// A cell of a grid: `input Cell { column: Int!, row: Int! }`.
#[derive(Debug, Drop, PartialEq)]
pub struct Cell {
    pub column: i32,
    pub row: i32,
}

impl<S: ScalarValue> FromInputValue<S> for Cell {
    type Error = FieldError<S>;

    ghost gives = { GivesCell (view_error S.shown) };

    fn from_input_value(
        alloc: Global,
        value: &InputValue<S>,
    ) -> Result<Result<Cell, FieldError<S>>, AllocError> {
        match (int_at(value, "column"), int_at(value, "row")) {
            (Some(column), Some(row)) => Ok(Ok(Cell { column, row })),
            _ => Ok(Err("Expected a cell".into_field_error(alloc)?)),
        }
    }
}

/// The Int that an object has at this name.
fn int_at<S: ScalarValue>(value: &InputValue<S>, name: &str) -> Option<i32>
    ensures { result ≡ cells.int_at name.now (meaning (view_input S.shown value.now)) }
{
    match value {
        InputValue::Object(fields) => int_of(field_at(fields, name)?),
        InputValue::Null => None,
        InputValue::Scalar(_) => None,
        InputValue::Enum(_) => None,
        InputValue::Variable(_) => None,
        InputValue::List(_) => None,
    }
}

/// The Int that a value shows, if it shows one.
fn int_of<S: ScalarValue>(value: &InputValue<S>) -> Option<i32>
    ensures { result ≡ int_of (meaning (view_input S.shown value.now)) }
{
    match value {
        InputValue::Scalar(scalar) => scalar.try_to_int(),
        InputValue::Null => None,
        InputValue::Enum(_) => None,
        InputValue::Variable(_) => None,
        InputValue::List(_) => None,
        InputValue::Object(_) => None,
    }
}

/// The value of the first field of this name.
fn field_at<'v, S: ScalarValue>(
    fields: &'v [(Spanning<String, Span>, Spanning<InputValue<S>, Span>)],
    name: &str,
) -> Option<&'v InputValue<S>>
    ensures { option_map (λ v. meaning (view_input S.shown v.now)) result ≡ find name.now (members (view_fields S.shown fields.now)) }
{
    for (key, value) in fields {
        if name == key.item.as_str() {
            return Some(&value.item);
        }
    }
    None
}
