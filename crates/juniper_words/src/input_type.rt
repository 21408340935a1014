//! Types that arguments and the fields of input objects are read as (sections 3.4.2 and 6.4.1 of the Specification).

ghost use Rattle.std.specs.Prelude.{◌≡◌, ℤ, Bool, Option, Result, option_map, string_bytes};
ghost use Rattle.graphql_spec.specs.Constants.{Constant, meaning};
ghost use Rattle.graphql_spec.specs.Resolvers.{Error};
ghost use Rattle.graphql_spec.specs.Shown.{Text};
ghost use Rattle.juniper_conversions.specs.IdText.{id_text};
ghost use Rattle.juniper_syntax.specs.InputView.{view_input};
ghost use Rattle.juniper_words.specs.InputsRead.{ReadsAs, read_bool, read_id, read_int, read_option, read_text};

use juniper_conversions::{FromInputValue, ID, ResolveError};
use juniper_syntax::{InputValue, ScalarValue};
use std::alloc::Global;

/// A type that arguments and the fields of input objects are read as. What is read is a function of what the value means, so a
/// resolver's definition says it by that function's name.
pub trait InputType<S: ScalarValue>: Drop {
    /// What is known of a value of the type.
    ghost Seen: { Type 0 };

    /// That of this value.
    ghost seen: { Self → Seen };

    /// What is read of a value that means this, or the error of the field that reads it.
    ghost read: { Constant → Result Seen Error };

    /// Reads a value. An error is that of the field, or says that memory is refused.
    fn read_input(alloc: Global, value: &InputValue<S>) -> Result<Self, ResolveError<S>>
        ensures { ReadsAs seen S.shown result (read (meaning (view_input S.shown value.now))) };
}

/// An Int (3.5.1).
impl<S: ScalarValue> InputType<S> for i32 {
    ghost Seen = { ℤ };

    ghost seen = { λ n. n };

    ghost read = { read_int };

    fn read_input(alloc: Global, value: &InputValue<S>) -> Result<i32, ResolveError<S>> {
        match <i32 as FromInputValue<S>>::from_input_value(alloc, value)? {
            Ok(number) => Ok(number),
            Err(error) => Err(ResolveError::Field(error)),
        }
    }
}

/// A Boolean (3.5.4).
impl<S: ScalarValue> InputType<S> for bool {
    ghost Seen = { Bool };

    ghost seen = { λ b. b };

    ghost read = { read_bool };

    fn read_input(alloc: Global, value: &InputValue<S>) -> Result<bool, ResolveError<S>> {
        match <bool as FromInputValue<S>>::from_input_value(alloc, value)? {
            Ok(truth) => Ok(truth),
            Err(error) => Err(ResolveError::Field(error)),
        }
    }
}

/// A String (3.5.3).
impl<S: ScalarValue> InputType<S> for String {
    ghost Seen = { Text };

    ghost seen = { λ s. string_bytes s };

    ghost read = { read_text };

    fn read_input(alloc: Global, value: &InputValue<S>) -> Result<String, ResolveError<S>> {
        match <String as FromInputValue<S>>::from_input_value(alloc, value)? {
            Ok(text) => Ok(text),
            Err(error) => Err(ResolveError::Field(error)),
        }
    }
}

/// An ID (3.5.5): a String, or an Int as its decimal text.
impl<S: ScalarValue> InputType<S> for ID {
    ghost Seen = { Text };

    ghost seen = { id_text };

    ghost read = { read_id };

    fn read_input(alloc: Global, value: &InputValue<S>) -> Result<ID, ResolveError<S>> {
        match <ID as FromInputValue<S>>::from_input_value(alloc, value)? {
            Ok(id) => Ok(id),
            Err(error) => Err(ResolveError::Field(error)),
        }
    }
}

/// A nullable type (3.12): null is `None`, any other value is read as the type inside.
impl<T: InputType<S>, S: ScalarValue> InputType<S> for Option<T> {
    ghost Seen = { Option T.Seen };

    ghost seen = { option_map T.seen };

    ghost read = { read_option T.read };

    fn read_input(alloc: Global, value: &InputValue<S>) -> Result<Option<T>, ResolveError<S>> {
        if value.is_null() {
            return Ok(None);
        }
        match T::read_input(alloc, value) {
            Ok(inner) => Ok(Some(inner)),
            Err(error) => Err(error),
        }
    }
}
