//! JSON values as input values.

ghost use Rattle.std.specs.Prelude.{◌≡◌, IfOk};
ghost use Rattle.juniper_syntax.specs.InputView.{view_fields, view_input, view_items};
ghost use Rattle.juniper_syntax.specs.Scalars.{default_shown};
ghost use Rattle.juniper_json.specs.Given.{fields_of, input_of, int_in, int_input, items_of};
ghost use Rattle.serde_json.specs.Data.{string};
ghost use Rattle.serde_json.specs.View.{items_view, members_view, number_view, view};

use crate::numbers::int_in;
use juniper_syntax::{DefaultScalarValue, InputValue, Span, Spanning};
use serde_json::{Map, Number, Value};
use std::alloc::{AllocError, Global};

/// The members of a JSON object.
pub type Members = Map<String, Value>;

/// An input value.
type Input = InputValue<DefaultScalarValue>;

/// A field of an object: its name and its value.
type InputField = (Spanning<String, Span>, Spanning<Input, Span>);

/// The value of a number: an Int, or null where it is none.
fn number_input(number: &Number) -> Input
    ensures { view_input default_shown result ≡ int_input (int_in (number_view number.now)) }
{
    match int_in(number) {
        Some(value) => InputValue::Scalar(DefaultScalarValue::Int(value)),
        None => InputValue::Null,
    }
}

/// The value of a text.
#[tactic(auto, unfolding(crate::specs::Given::input_of))]
fn text_input(alloc: Global, text: &str) -> Result<Input, AllocError>
    ensures { IfOk result (λ made. view_input default_shown made ≡ input_of (string text.now)) }
{
    Ok(InputValue::Scalar(DefaultScalarValue::String(String::from_str(alloc, text)?)))
}

/// The input value that a JSON value gives; an error where memory is refused.
#[cycle(input)]
#[tactic(auto, unfolding(crate::specs::Given::input_of))]
pub fn input(alloc: Global, value: &Value) -> Result<Input, AllocError>
    ensures { IfOk result (λ made. view_input default_shown made ≡ input_of (view value.now)) }
{
    match value {
        Value::Null => Ok(InputValue::Null),
        Value::Bool(truth) => Ok(InputValue::Scalar(DefaultScalarValue::Boolean(*truth))),
        Value::Number(number) => Ok(number_input(number)),
        Value::String(text) => text_input(alloc, text.as_str()),
        Value::Array(items) => Ok(InputValue::List(list_items(alloc, items)?)),
        Value::Object(members) => Ok(InputValue::Object(object_fields(alloc, members)?)),
    }
}

#[cycle(input)]
#[tactic(auto, unfolding(crate::specs::Given::input_of))]
fn list_items(alloc: Global, items: &Vec<Value>) -> Result<Vec<Spanning<Input, Span>>, AllocError>
    ensures { IfOk result (λ made. view_items default_shown made.items ≡ items_of (items_view items.now.items)) }
{
    let mut made = Vec::with_capacity(alloc, items.len())?;
    for item in items {
        made.push(Spanning::unlocated(input(alloc, item)?))?;
    }
    Ok(made)
}

#[cycle(input)]
#[tactic(auto, unfolding(crate::specs::Given::input_of))]
fn object_fields(alloc: Global, members: &Members) -> Result<Vec<InputField>, AllocError>
    ensures { IfOk result (λ made. view_fields default_shown made.items ≡ fields_of (members_view members.now.entries)) }
{
    let mut made = Vec::new(alloc);
    for (name, value) in members.iter() {
        let key = String::from_str(alloc, name.as_str())?;
        let own = input(alloc, value)?;
        made.push((Spanning::unlocated(key), Spanning::unlocated(own)))?;
    }
    Ok(made)
}
