//! Enums by their values and the names of these (section 3.9 of the Specification).

ghost use Rattle.std.specs.Prelude.{◌≡◌, List, Option};
ghost use Rattle.std.specs.Option.{option_and_then};
ghost use Rattle.graphql_spec.specs.Constants.{meaning};
ghost use Rattle.graphql_spec.specs.Shown.{Name, shown_text};
ghost use Rattle.juniper_syntax.specs.InputView.{view_input};
ghost use Rattle.juniper_values.specs.ArgumentsRead.{enum_of};
ghost use Rattle.juniper_words.specs.InputsRead.{named_among, read_enum};

use crate::input_type::InputType;
use juniper_conversions::{ResolveError, error_of_message};
use juniper_syntax::{InputValue, ScalarValue};
use std::alloc::Global;

/// An enum: its values in order, and the name of each (3.9).
pub trait EnumType: Copy + Drop + 'static {
    /// Its values, in the order in which they are declared.
    ghost values: { List Self };

    /// The name of a value.
    ghost name_of: { Self → Name };

    /// Its values, in the order in which they are declared.
    fn values() -> &'static [Self]
        ensures { result.now ≡ values };

    /// The name of a value.
    fn value_name(&self) -> &'static str
        ensures { result.now ≡ name_of self.now };
}

/// A value of an enum, by its name or by the same text (3.9).
impl<E: EnumType, S: ScalarValue> InputType<S> for E {
    ghost Seen = { E };

    ghost seen = { λ e. e };

    ghost read = { read_enum (named_among E.name_of E.values) };

    fn read_input(alloc: Global, value: &InputValue<S>) -> Result<E, ResolveError<S>> {
        match enum_of::<E, S>(value) {
            Some(found) => Ok(found),
            None => {
                let message = String::from_str(alloc, "Expected a value of the enum")?;
                Err(ResolveError::Field(error_of_message(message)))
            }
        }
    }
}

/// The enum's value that this names, as an enum's value or as a text.
fn enum_of<E: EnumType, S: ScalarValue>(value: &InputValue<S>) -> Option<E>
    ensures { result ≡ enum_of (named_among E.name_of E.values) (meaning (view_input S.shown value.now)) }
{
    match value {
        InputValue::Enum(name) => named::<E>(name.as_str()),
        InputValue::Scalar(scalar) => named_by_text::<E, S>(scalar),
        InputValue::Null => None,
        InputValue::Variable(_) => None,
        InputValue::List(_) => None,
        InputValue::Object(_) => None,
    }
}

/// The enum's value that a text names.
fn named_by_text<E: EnumType, S: ScalarValue>(scalar: &S) -> Option<E>
    ensures { result ≡ option_and_then (named_among E.name_of E.values) (shown_text (S.shown scalar.now)) }
{
    match scalar.try_to_str() {
        Some(name) => named::<E>(name),
        None => None,
    }
}

/// The first of the enum's values that has this name.
fn named<E: EnumType>(name: &str) -> Option<E>
    ensures { result ≡ named_among E.name_of E.values name.now }
{
    for value in E::values() {
        if value.value_name() == name {
            return Some(*value);
        }
    }
    None
}
