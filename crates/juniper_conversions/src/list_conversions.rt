//! Conversions between input values and lists (section 3.11 of the Specification).

ghost use Rattle.std.specs.Prelude.{◌≡◌, ◌≢◌, ◌∷◌, [], IfOk, MatchResult, length, map, option_map};
ghost use Rattle.graphql_spec.specs.Constants.{meaning, meanings};
ghost use Rattle.juniper_syntax.specs.InputView.{view_input, view_items};
ghost use Rattle.juniper_conversions.specs.ListConversions.{GivesItems, constants_of, list_of};

use crate::conversion_errors::{FromInputValueArrayError, FromInputValueVecError};
use crate::convert::{FromInputValue, ToInputValue};
use juniper_syntax::{InputValue, ScalarValue, Span, Spanning};
use std::alloc::{AllocError, Global};

/// A list (3.11): null is refused, and a value that is no list is taken for a list of one item.
impl<T: FromInputValue<S>, S: ScalarValue> FromInputValue<S> for Vec<T> {
    ghost use Rattle.juniper_conversions.specs.ListConversions.{GivesVec};

    type Error = FromInputValueVecError<T, S>;

    ghost gives = { GivesVec T.gives };

    fn from_input_value(
        alloc: Global,
        value: &InputValue<S>,
    ) -> Result<Result<Vec<T>, FromInputValueVecError<T, S>>, AllocError> {
        if value.is_null() {
            return Ok(Err(FromInputValueVecError::Null));
        }
        let answer = match list_of(value) {
            Some(items) => convert_items(alloc, items)?,
            None => convert_single(alloc, value)?,
        };
        match answer {
            Ok(items) => Ok(Ok(items)),
            Err(error) => Ok(Err(FromInputValueVecError::Item(error))),
        }
    }
}

impl<T: ToInputValue<S>, S: ScalarValue> ToInputValue<S> for Vec<T> {
    ghost use Rattle.juniper_conversions.specs.ListConversions.{list_input};

    ghost input = { λ values. list_input T.input values.items };

    fn to_input_value(&self, alloc: Global) -> Result<InputValue<S>, AllocError> {
        Ok(InputValue::List(write_items(alloc, self.as_slice())?))
    }
}

/// A list of `N` items (3.11): null is refused, the count of a list is compared before its items are converted, and a
/// value that is no list is converted first and then counted as one item.
impl<T: FromInputValue<S>, S: ScalarValue, const N: usize> FromInputValue<S> for [T; N] {
    ghost use Rattle.juniper_conversions.specs.ListConversions.{GivesArray};

    type Error = FromInputValueArrayError<T, S>;

    ghost gives = { GivesArray N T.gives };

    fn from_input_value(
        alloc: Global,
        value: &InputValue<S>,
    ) -> Result<Result<[T; N], FromInputValueArrayError<T, S>>, AllocError> {
        if value.is_null() {
            return Ok(Err(FromInputValueArrayError::Null));
        }
        let converted = match list_of(value) {
            Some(items) => {
                if items.len() != N {
                    return Ok(Err(wrong_count(items.len(), N)));
                }
                convert_items(alloc, items)?
            }
            None => convert_single(alloc, value)?,
        };
        match converted {
            Ok(items) => Ok(into_array(items)),
            Err(error) => Ok(Err(FromInputValueArrayError::Item(error))),
        }
    }
}

impl<T: ToInputValue<S>, S: ScalarValue, const N: usize> ToInputValue<S> for [T; N] {
    ghost use Rattle.juniper_conversions.specs.ListConversions.{list_input};

    ghost input = { list_input T.input };

    fn to_input_value(&self, alloc: Global) -> Result<InputValue<S>, AllocError> {
        Ok(InputValue::List(write_items(alloc, self)?))
    }
}

/// The items of a value that is a list.
pub fn list_of<S: ScalarValue>(value: &InputValue<S>) -> Option<&[Spanning<InputValue<S>, Span>]>
    ensures { option_map (λ items. map (λ x. meaning (view_input S.shown x.item)) items.now) result ≡ list_of (meaning (view_input S.shown value.now)) }
{
    match value {
        InputValue::Null => None,
        InputValue::Scalar(_) => None,
        InputValue::Enum(_) => None,
        InputValue::Variable(_) => None,
        InputValue::List(items) => Some(items.as_slice()),
        InputValue::Object(_) => None,
    }
}

/// Converts each item, up to the first that has no conversion, whose error it answers.
fn convert_items<T: FromInputValue<S>, S: ScalarValue>(
    alloc: Global,
    items: &[Spanning<InputValue<S>, Span>],
) -> Result<Result<Vec<T>, T::Error>, AllocError>
    ensures { IfOk result (GivesItems T.gives (map (λ x. meaning (view_input S.shown x.item)) items.now)) }
{
    let mut converted = Vec::new(alloc);
    for item in items {
        match T::from_input_value(alloc, &item.item)? {
            Ok(value) => converted.push(value)?,
            Err(error) => return Ok(Err(error)),
        }
    }
    Ok(Ok(converted))
}

/// Converts a value as the only item of a list.
fn convert_single<T: FromInputValue<S>, S: ScalarValue>(
    alloc: Global,
    value: &InputValue<S>,
) -> Result<Result<Vec<T>, T::Error>, AllocError>
    ensures { IfOk result (GivesItems T.gives (meaning (view_input S.shown value.now) ∷ [])) }
{
    match T::from_input_value(alloc, value)? {
        Ok(item) => {
            let mut items = Vec::new(alloc);
            items.push(item)?;
            Ok(Ok(items))
        }
        Err(error) => Ok(Err(error)),
    }
}

/// The array of these items; an error where their count is not `N`.
fn into_array<T: FromInputValue<S>, S: ScalarValue, const N: usize>(
    items: Vec<T>,
) -> Result<[T; N], FromInputValueArrayError<T, S>>
    ensures { MatchResult result
        (λ array. (array ≡ items.items) × (length items.items ≡ N))
        (λ error. (error ≡ FromInputValueArrayError.WrongCount (length items.items) N) × (length items.items ≢ N)) }
{
    let actual = items.len();
    match <[T; N]>::try_from(items) {
        Ok(array) => Ok(array),
        Err(_) => Err(wrong_count(actual, N)),
    }
}

/// The error of so many items where an array has another count.
fn wrong_count<T: FromInputValue<S>, S: ScalarValue>(
    actual: usize,
    expected: usize,
) -> FromInputValueArrayError<T, S>
    ensures { result ≡ FromInputValueArrayError.WrongCount actual expected }
{
    FromInputValueArrayError::WrongCount { actual, expected }
}

/// The input value of each item.
fn write_items<T: ToInputValue<S>, S: ScalarValue>(
    alloc: Global,
    values: &[T],
) -> Result<Vec<Spanning<InputValue<S>, Span>>, AllocError>
    ensures { IfOk result (λ made. meanings (view_items S.shown made.items) ≡ constants_of (map T.input values.now)) }
{
    let mut items = Vec::new(alloc);
    for value in values {
        items.push(Spanning::unlocated(value.to_input_value(alloc)?))?;
    }
    Ok(items)
}
