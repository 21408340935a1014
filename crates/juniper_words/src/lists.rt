//! Lists as they are read (section 3.11 of the Specification).

ghost use Rattle.std.specs.Prelude.{◌≡◌, ◌∷◌, [], List, map};
ghost use Rattle.graphql_spec.specs.Constants.{meaning};
ghost use Rattle.juniper_syntax.specs.InputView.{view_input};
ghost use Rattle.juniper_words.specs.InputsRead.{ReadsAs, read_items, read_list};

use crate::input_type::InputType;
use juniper_conversions::{ResolveError, error_of_message, list_of};
use juniper_syntax::{InputValue, ScalarValue, Span, Spanning};
use std::alloc::Global;

/// A list (3.11): null is refused, a list is read item by item, and the first error is the whole list's; any other value is taken
/// for a list of one item.
impl<T: InputType<S>, S: ScalarValue> InputType<S> for Vec<T> {
    ghost Seen = { List T.Seen };

    ghost seen = { λ v. map T.seen v.items };

    ghost read = { read_list T.read };

    fn read_input(alloc: Global, value: &InputValue<S>) -> Result<Vec<T>, ResolveError<S>> {
        if value.is_null() {
            let message = String::from_str(
                alloc,
                "Failed to convert into `Vec`: Value cannot be `null`",
            )?;
            return Err(ResolveError::Field(error_of_message(message)));
        }
        match list_of(value) {
            Some(items) => read_items(alloc, items),
            None => read_single(alloc, value),
        }
    }
}

/// Reads each item, up to the first that answers an error.
fn read_items<T: InputType<S>, S: ScalarValue>(
    alloc: Global,
    items: &[Spanning<InputValue<S>, Span>],
) -> Result<Vec<T>, ResolveError<S>>
    ensures { ReadsAs (λ v. map T.seen v.items) S.shown result (read_items T.read (map (λ x. meaning (view_input S.shown x.item)) items.now)) }
{
    let mut made = Vec::new(alloc);
    for item in items {
        match T::read_input(alloc, &item.item) {
            Ok(value) => made.push(value)?,
            Err(error) => return Err(error),
        }
    }
    Ok(made)
}

/// Reads a value as the only item of a list.
fn read_single<T: InputType<S>, S: ScalarValue>(
    alloc: Global,
    value: &InputValue<S>,
) -> Result<Vec<T>, ResolveError<S>>
    ensures { ReadsAs (λ v. map T.seen v.items) S.shown result (read_items T.read (meaning (view_input S.shown value.now) ∷ [])) }
{
    match T::read_input(alloc, value) {
        Err(error) => Err(error),
        Ok(item) => {
            let mut items = Vec::new(alloc);
            items.push(item)?;
            Ok(items)
        }
    }
}
