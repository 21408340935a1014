//! Conversions between input values and IDs (section 3.5.5 of the Specification).

ghost use Rattle.std.specs.Prelude.{◌≡◌, IfOk, codes, option_map};
ghost use Rattle.graphql_spec.specs.Constants.{meaning};
ghost use Rattle.juniper_conversions.specs.IdText.{id_text};
ghost use Rattle.juniper_syntax.specs.InputView.{view_input};
ghost use Rattle.juniper_conversions.specs.Identifiers.{id_of};
ghost use Rattle.juniper_conversions.specs.ErrorView.{view_error};

use crate::convert::{FromInputValue, ToInputValue, refused, scalar_of};
use crate::{FieldError, ID, ToScalarValue, shown_id};
use juniper_syntax::{InputValue, ScalarValue};
use std::alloc::{AllocError, Global};

/// An ID (3.5.5): a String, or an Int as its decimal text.
impl<S: ScalarValue> FromInputValue<S> for ID {
    ghost use Rattle.juniper_conversions.specs.Conversions.{GivesScalar};

    type Error = FieldError<S>;

    ghost gives = { GivesScalar id_text (view_error S.shown) (codes "String` or `Int") id_of };

    fn from_input_value(
        alloc: Global,
        value: &InputValue<S>,
    ) -> Result<Result<ID, FieldError<S>>, AllocError> {
        match id_of(alloc, value)? {
            Some(id) => Ok(Ok(id)),
            None => Ok(Err(refused(alloc, "String` or `Int", value)?)),
        }
    }
}

/// The text of the ID (3.5.5).
impl<S: ScalarValue> ToInputValue<S> for ID {
    ghost use Rattle.graphql_spec.specs.Constants.{scalar};
    ghost use Rattle.graphql_spec.specs.Shown.{text};

    ghost input = { λ id. scalar (text (id_text id)) };

    fn to_input_value(&self, alloc: Global) -> Result<InputValue<S>, AllocError> {
        Ok(InputValue::Scalar(self.to_scalar_value(alloc)?))
    }
}

/// The ID that a value shows, if it shows one.
fn id_of<S: ScalarValue>(alloc: Global, value: &InputValue<S>) -> Result<Option<ID>, AllocError>
    ensures { IfOk result (λ found. option_map id_text found ≡ id_of (meaning (view_input S.shown value.now))) }
{
    match scalar_of(value) {
        Some(scalar) => shown_id(alloc, scalar),
        None => Ok(None),
    }
}
