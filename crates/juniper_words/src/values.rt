//! The values of defaults (sections 2.9 and 3.6.1 of the Specification).

ghost use Rattle.std.specs.Prelude.{◌≡◌, IfOk, option_map};
ghost use Rattle.juniper_syntax.specs.InputView.{view_fields, view_input, view_items};
ghost use Rattle.juniper_words.specs.Data.{items_of, literal, members_of};

use crate::data::Literal;
use juniper_syntax::{InputField, InputValue, ScalarValue, Span, Spanning};
use std::alloc::{AllocError, Global};

/// An item of a list, with its place.
type Item<S> = Spanning<InputValue<S>, Span>;

/// The value that is written so.
#[cycle(value_of)]
fn value_of<S: ScalarValue>(alloc: Global, value: &Literal) -> Result<InputValue<S>, AllocError>
    ensures { IfOk result (λ v. view_input S.shown v ≡ literal value.now) }
{
    match value {
        Literal::Null => Ok(InputValue::Null),
        Literal::Int(number) => Ok(InputValue::Scalar(S::from_int(*number))),
        Literal::Text(text) => {
            let text = String::from_str(alloc, text)?;
            Ok(InputValue::Scalar(S::from_text(text)?))
        }
        Literal::Boolean(truth) => Ok(InputValue::Scalar(S::from_bool(*truth))),
        Literal::Enum(name) => Ok(InputValue::Enum(String::from_str(alloc, name)?)),
        Literal::List(items) => Ok(InputValue::List(items_of(alloc, items)?)),
        Literal::Object(members) => Ok(InputValue::Object(members_of(alloc, members)?)),
    }
}

/// The items of a list, in order.
#[cycle(value_of)]
fn items_of<S: ScalarValue>(alloc: Global, items: &[Literal]) -> Result<Vec<Item<S>>, AllocError>
    ensures { IfOk result (λ made. view_items S.shown made.items ≡ items_of items.now) }
{
    let mut made = Vec::new(alloc);
    for item in items {
        let value = value_of(alloc, item)?;
        made.push(Spanning::unlocated(value))?;
    }
    Ok(made)
}

/// The fields of an object, in order.
#[cycle(value_of)]
fn members_of<S: ScalarValue>(
    alloc: Global,
    members: &[(&str, Literal)],
) -> Result<Vec<InputField<S>>, AllocError>
    ensures { IfOk result (λ made. view_fields S.shown made.items ≡ members_of members.now) }
{
    let mut made = Vec::new(alloc);
    for member in members {
        let value = value_of(alloc, &member.1)?;
        let name = String::from_str(alloc, member.0)?;
        made.push((Spanning::unlocated(name), Spanning::unlocated(value)))?;
    }
    Ok(made)
}

/// A default, where there is one.
pub(crate) fn default_of<S: ScalarValue>(
    alloc: Global,
    default: &Option<Literal>,
) -> Result<Option<InputValue<S>>, AllocError>
    ensures { IfOk result (λ v. option_map (view_input S.shown) v ≡ option_map literal default.now) }
{
    match default {
        None => Ok(None),
        Some(value) => Ok(Some(value_of(alloc, value)?)),
    }
}
