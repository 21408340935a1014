//! What resolvers read of their arguments (section 6.4.1 of the Specification).

ghost use Rattle.std.specs.Prelude.{option_map, string_bytes};
ghost use Rattle.graphql_spec.specs.Constants.{find};
ghost use Rattle.juniper_conversions.specs.IdText.{id_text};
ghost use Rattle.juniper_values.specs.ArgumentView.{view_arguments};
ghost use Rattle.juniper_words.specs.InputsRead.{ReadsAs, argument, bool_argument, given, id_argument, text_argument};

use crate::input_type::InputType;
use juniper_conversions::{ID, ResolveError};
use juniper_syntax::{InputValue, ScalarValue};
use juniper_values::Arguments;
use std::alloc::Global;

/// The argument of this name as a `T`; `None` where it is missing or null. An error is that of the field, or says that memory
/// is refused.
pub fn argument<T: InputType<S>, S: ScalarValue>(
    alloc: Global,
    arguments: &Arguments<'_, S>,
    name: &str,
) -> Result<Option<T>, ResolveError<S>>
    ensures { ReadsAs (option_map T.seen) S.shown result (argument T.read (find name.now (view_arguments S.shown arguments.now))) }
{
    match arguments.get_input_value(name) {
        Some(value) => <Option<T> as InputType<S>>::read_input(alloc, &value.item),
        None => Ok(None),
    }
}

/// The argument of this name as a `T`. One that is missing is read as null: an `Option` is `None` then, and any other type answers
/// its error. An error is that of the field, or says that memory is refused.
pub fn given<T: InputType<S>, S: ScalarValue>(
    alloc: Global,
    arguments: &Arguments<'_, S>,
    name: &str,
) -> Result<T, ResolveError<S>>
    ensures { ReadsAs T.seen S.shown result (given T.read (find name.now (view_arguments S.shown arguments.now))) }
{
    match arguments.get_input_value(name) {
        Some(value) => T::read_input(alloc, &value.item),
        None => T::read_input(alloc, &InputValue::Null),
    }
}

/// The String of this name (3.5.3); `None` where it is missing or null. Any other value is an error.
pub fn text_argument<S: ScalarValue>(
    alloc: Global,
    arguments: &Arguments<'_, S>,
    name: &str,
) -> Result<Option<String>, ResolveError<S>>
    ensures { ReadsAs (option_map (λ s. string_bytes s)) S.shown result (text_argument (find name.now (view_arguments S.shown arguments.now))) }
{
    argument(alloc, arguments, name)
}

/// The ID of this name, a String or an Int (3.5.5); `None` where it is missing or null. Any other value is an error.
pub fn id_argument<S: ScalarValue>(
    alloc: Global,
    arguments: &Arguments<'_, S>,
    name: &str,
) -> Result<Option<ID>, ResolveError<S>>
    ensures { ReadsAs (option_map id_text) S.shown result (id_argument (find name.now (view_arguments S.shown arguments.now))) }
{
    argument(alloc, arguments, name)
}

/// The Boolean of this name (3.5.4); `None` where it is missing or null. Any other value is an error.
pub fn bool_argument<S: ScalarValue>(
    alloc: Global,
    arguments: &Arguments<'_, S>,
    name: &str,
) -> Result<Option<bool>, ResolveError<S>>
    ensures { ReadsAs (λ b. b) S.shown result (bool_argument (find name.now (view_arguments S.shown arguments.now))) }
{
    argument(alloc, arguments, name)
}
