//! Conversions between scalars and IDs (section 3.5.5 of the Specification).

ghost use Rattle.std.specs.Prelude.{◌≡◌, IfOk, codes, option_map};
ghost use Rattle.juniper_conversions.specs.IdText.{id_text};
ghost use Rattle.juniper_conversions.specs.Identifiers.{id_of, shown_id};
ghost use Rattle.juniper_conversions.specs.ErrorView.{view_error};

use crate::scalar_traits::{FromScalarValue, ToScalarValue, refused_scalar};
use crate::{FieldError, ID};
use juniper_syntax::ScalarValue;
use std::alloc::{AllocError, Global};

/// An ID (3.5.5): a String, or an Int as its decimal text.
impl<'s, S: ScalarValue> FromScalarValue<'s, S> for ID {
    ghost use Rattle.graphql_spec.specs.Constants.{scalar};
    ghost use Rattle.juniper_conversions.specs.Conversions.{GivesScalar};

    type Error = FieldError<S>;

    ghost gives = { λ s. GivesScalar id_text (view_error S.shown) (codes "String` or `Int") id_of (scalar s) };

    fn from_scalar_value(
        alloc: Global,
        value: &'s S,
    ) -> Result<Result<ID, FieldError<S>>, AllocError> {
        match shown_id(alloc, value)? {
            Some(id) => Ok(Ok(id)),
            None => Ok(Err(refused_scalar(alloc, "String` or `Int")?)),
        }
    }
}

/// The text of the ID (3.5.5).
impl<S: ScalarValue> ToScalarValue<S> for ID {
    ghost use Rattle.graphql_spec.specs.Shown.{text};

    ghost shows = { λ id. text (id_text id) };

    fn to_scalar_value(&self, alloc: Global) -> Result<S, AllocError> {
        S::from_text(String::from_str(alloc, self.as_str())?)
    }
}

/// The ID that a scalar shows, if it shows one: a text, or an Int as its decimal text.
pub fn shown_id<S: ScalarValue>(alloc: Global, scalar: &S) -> Result<Option<ID>, AllocError>
    ensures { IfOk result (λ found. option_map id_text found ≡ shown_id (S.shown scalar.now)) }
{
    match scalar.try_to_str() {
        Some(text) => Ok(Some(ID::new(String::from_str(alloc, text)?))),
        None => match scalar.try_to_int() {
            Some(number) => Ok(Some(ID::new(number.to_string(alloc)?))),
            None => Ok(None),
        },
    }
}
