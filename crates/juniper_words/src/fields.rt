//! What is read of the fields of an input object (section 3.10 of the Specification).

ghost use Rattle.std.specs.Prelude.{◌≡◌, option_map};
ghost use Rattle.graphql_spec.specs.Constants.{find, meaning, members};
ghost use Rattle.juniper_syntax.specs.InputView.{view_fields, view_input};
ghost use Rattle.juniper_words.specs.InputsRead.{ReadsAs, at_field, input_field, input_field_or};

use crate::input_type::InputType;
use juniper_conversions::ResolveError;
use juniper_syntax::{InputValue, ScalarValue, Span, Spanning};
use std::alloc::Global;

/// The field of this name as a `T`. A field that is missing is read as null: an `Option` is `None` then, and any other type
/// answers its error. An error is that of the field that reads the argument, or says that memory is refused.
pub fn input_field<T: InputType<S>, S: ScalarValue>(
    alloc: Global,
    value: &InputValue<S>,
    name: &str,
) -> Result<T, ResolveError<S>>
    ensures { ReadsAs T.seen S.shown result (input_field T.read name.now (meaning (view_input S.shown value.now))) }
{
    match field_at(value, name) {
        Some(held) => T::read_input(alloc, held),
        None => T::read_input(alloc, &InputValue::Null),
    }
}

/// The field of this name as a `T`, or this default where it is missing; a null that is written is read as null, and not as the
/// default. An error is that of the field that reads the argument, or says that memory is refused.
pub fn input_field_or<T: InputType<S>, S: ScalarValue>(
    alloc: Global,
    value: &InputValue<S>,
    name: &str,
    default: T,
) -> Result<T, ResolveError<S>>
    ensures { ReadsAs T.seen S.shown result (input_field_or T.read name.now (T.seen default) (meaning (view_input S.shown value.now))) }
{
    match field_at(value, name) {
        Some(held) => T::read_input(alloc, held),
        None => Ok(default),
    }
}

/// What an object has at a name.
fn field_at<'v, S: ScalarValue>(value: &'v InputValue<S>, name: &str) -> Option<&'v InputValue<S>>
    ensures { option_map (λ v. meaning (view_input S.shown v.now)) result ≡ at_field name.now (meaning (view_input S.shown value.now)) }
{
    match value {
        InputValue::Object(fields) => field_in(fields, name),
        InputValue::Null => None,
        InputValue::Scalar(_) => None,
        InputValue::Enum(_) => None,
        InputValue::Variable(_) => None,
        InputValue::List(_) => None,
    }
}

/// The value of the first field of this name.
fn field_in<'v, S: ScalarValue>(
    fields: &'v [(Spanning<String, Span>, Spanning<InputValue<S>, Span>)],
    name: &str,
) -> Option<&'v InputValue<S>>
    ensures { option_map (λ v. meaning (view_input S.shown v.now)) result ≡ find name.now (members (view_fields S.shown fields.now)) }
{
    for (key, held) in fields {
        if name == key.item.as_str() {
            return Some(&held.item);
        }
    }
    None
}
