//! Values that mean the same (section 2.9 of the Specification).

ghost use Rattle.std.specs.Prelude.{◌≡◌, option_map, string_bytes};
ghost use Rattle.graphql_spec.specs.Inputs as inputs;
ghost use Rattle.juniper_syntax.specs.InputView.{view_fields, view_input, view_items};
ghost use Rattle.juniper_field_graph.specs.NamedValues.{view_named};
ghost use Rattle.juniper_field_graph.specs.SameValues as same;
ghost use Rattle.juniper_field_graph.specs.SameValues.{passes};

use crate::named_values::{Named, all_named, value_at};
use juniper_syntax::{InputValue, ScalarValue, Span, Spanning};

/// Whether two values are the same up to places and the order of object fields, where no object has two fields of one
/// name (2.9).
#[cycle(same)]
#[tactic(auto, using(juniper_syntax::proofs::Inputs::input_views), unfolding(crate::specs::SameValues::same_value))]
pub(crate) fn same_value<S: ScalarValue>(first: &InputValue<S>, second: &InputValue<S>) -> bool
    ensures { result ≡ same.same_value (view_input S.shown first.now) (view_input S.shown second.now) }
{
    match first {
        InputValue::Null => second.is_null(),
        InputValue::Scalar(scalar) => is_scalar(second, scalar),
        InputValue::Enum(name) => is_enum(second, name.as_str()),
        InputValue::Variable(name) => is_variable(second, name.as_str()),
        InputValue::List(items) => same_list(items.as_slice(), second),
        InputValue::Object(fields) => same_object(fields.as_slice(), second),
    }
}

/// Whether the second value is a list of the same items.
#[cycle(same)]
#[tactic(auto, using(juniper_syntax::proofs::Inputs::input_views), unfolding(crate::specs::SameValues::same_value))]
fn same_list<S: ScalarValue>(
    items: &[Spanning<InputValue<S>, Span>],
    second: &InputValue<S>,
) -> bool
    ensures { result ≡ same.same_value (inputs.list (view_items S.shown items.now)) (view_input S.shown second.now) }
{
    match second {
        InputValue::List(others) => same_items(items, others.as_slice()),
        InputValue::Null => false,
        InputValue::Scalar(_) => false,
        InputValue::Enum(_) => false,
        InputValue::Variable(_) => false,
        InputValue::Object(_) => false,
    }
}

/// Whether two lists have the same items, in order.
#[cycle(same)]
fn same_items<S: ScalarValue>(
    items: &[Spanning<InputValue<S>, Span>],
    others: &[Spanning<InputValue<S>, Span>],
) -> bool
    ensures { result ≡ same.same_items (view_items S.shown items.now) (view_items S.shown others.now) }
{
    if items.len() != others.len() {
        return false;
    }
    for index in 0..items.len() {
        match (items.get(index), others.get(index)) {
            (Some(item), Some(other)) => {
                if !same_value(&item.item, &other.item) {
                    return false;
                }
            }
            _ => return false,
        }
    }
    true
}

/// Whether the second value is an object of the same fields, in any order.
#[cycle(same)]
#[tactic(auto, using(juniper_syntax::proofs::Inputs::input_views), unfolding(crate::specs::SameValues::same_value))]
fn same_object<S: ScalarValue>(fields: &[Named<String, S>], second: &InputValue<S>) -> bool
    ensures { result ≡ same.same_value (inputs.object (view_fields S.shown fields.now)) (view_input S.shown second.now) }
{
    match second {
        InputValue::Object(others) => {
            same_fields(fields, others.as_slice()) && all_named(others.as_slice(), fields)
        }
        InputValue::Null => false,
        InputValue::Scalar(_) => false,
        InputValue::Enum(_) => false,
        InputValue::Variable(_) => false,
        InputValue::List(_) => false,
    }
}

/// Whether each of the fields has the same value among the others.
#[cycle(same)]
fn same_fields<S: ScalarValue>(fields: &[Named<String, S>], others: &[Named<String, S>]) -> bool
    ensures { result ≡ same.same_fields (view_named (λ n. string_bytes n) S.shown fields.now) (view_named (λ n. string_bytes n) S.shown others.now) }
{
    for field in fields {
        if !is_matched(&field.1.item, value_at(others, field.0.item.as_str())) {
            return false;
        }
    }
    true
}

/// Whether there is a second value, and it is the same.
#[cycle(same)]
pub(crate) fn is_matched<S: ScalarValue>(
    first: &InputValue<S>,
    second: Option<&InputValue<S>>,
) -> bool
    ensures { result ≡ passes (λ w. same.same_value (view_input S.shown first.now) w) (option_map (λ v. view_input S.shown v.now) second.entry) }
{
    match second {
        Some(value) => same_value(first, value),
        None => false,
    }
}

/// Whether it is an equal scalar.
#[tactic(auto, using(juniper_syntax::proofs::Inputs::input_views), unfolding(crate::specs::SameValues::same_value))]
fn is_scalar<S: ScalarValue>(value: &InputValue<S>, scalar: &S) -> bool
    ensures { result ≡ same.same_value (inputs.scalar (S.shown scalar.now)) (view_input S.shown value.now) }
{
    match value {
        InputValue::Scalar(other) => scalar == other,
        InputValue::Null => false,
        InputValue::Enum(_) => false,
        InputValue::Variable(_) => false,
        InputValue::List(_) => false,
        InputValue::Object(_) => false,
    }
}

/// Whether it is the enum's value of this name.
#[tactic(auto, using(juniper_syntax::proofs::Inputs::input_views), unfolding(crate::specs::SameValues::same_value))]
fn is_enum<S: ScalarValue>(value: &InputValue<S>, name: &str) -> bool
    ensures { result ≡ same.same_value (inputs.enumerated name.now) (view_input S.shown value.now) }
{
    match value {
        InputValue::Enum(other) => name == other.as_str(),
        InputValue::Null => false,
        InputValue::Scalar(_) => false,
        InputValue::Variable(_) => false,
        InputValue::List(_) => false,
        InputValue::Object(_) => false,
    }
}

/// Whether it is the variable of this name.
#[tactic(auto, using(juniper_syntax::proofs::Inputs::input_views), unfolding(crate::specs::SameValues::same_value))]
fn is_variable<S: ScalarValue>(value: &InputValue<S>, name: &str) -> bool
    ensures { result ≡ same.same_value (inputs.variable name.now) (view_input S.shown value.now) }
{
    match value {
        InputValue::Variable(other) => name == other.as_str(),
        InputValue::Null => false,
        InputValue::Scalar(_) => false,
        InputValue::Enum(_) => false,
        InputValue::List(_) => false,
        InputValue::Object(_) => false,
    }
}
