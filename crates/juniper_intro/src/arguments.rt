//! The arguments of fields of introspection (section 4.2 of the Specification).

ghost use Rattle.std.specs.Prelude.{◌≡◌, Some, codes, false, option_map, unwrap_or};
ghost use Rattle.graphql_spec.specs.Constants.{find, meaning};
ghost use Rattle.graphql_spec.specs.Introspection.{given_text, includes_deprecated, is_yes};
ghost use Rattle.graphql_spec.specs.Shown.{shown_boolean};
ghost use Rattle.juniper_syntax.specs.InputView.{view_input};
ghost use Rattle.juniper_values.specs.ArgumentView.{view_arguments};

use juniper_syntax::{InputValue, ScalarValue};
use juniper_values::Arguments;

/// Whether deprecated ones are asked for too; null counts as no.
#[tactic(auto, unfolding(graphql_spec::specs::Introspection::includes_deprecated, graphql_spec::specs::Introspection::is_yes))]
pub(crate) fn includes_deprecated<S: ScalarValue>(arguments: &Arguments<'_, S>) -> bool
    ensures { result ≡ includes_deprecated (view_arguments S.shown arguments.now) }
{
    match arguments.get_input_value("includeDeprecated") {
        Some(value) => is_yes(&value.item),
        None => false,
    }
}

/// Whether it is the boolean true.
#[tactic(auto, unfolding(graphql_spec::specs::Introspection::is_yes, graphql_spec::specs::Shown::shown_boolean))]
fn is_yes<S: ScalarValue>(value: &InputValue<S>) -> bool
    ensures { result ≡ is_yes (Some (meaning (view_input S.shown value.now))) }
{
    match value {
        InputValue::Scalar(scalar) => is_true(scalar),
        InputValue::Null => false,
        InputValue::Enum(_) => false,
        InputValue::Variable(_) => false,
        InputValue::List(_) => false,
        InputValue::Object(_) => false,
    }
}

/// Whether a scalar is the boolean true.
fn is_true<S: ScalarValue>(scalar: &S) -> bool
    ensures { result ≡ unwrap_or (shown_boolean (S.shown scalar.now)) false }
{
    scalar.try_to_bool().unwrap_or(false)
}

/// The text that is given as a name.
#[tactic(auto, unfolding(graphql_spec::specs::Introspection::given_text))]
pub(crate) fn given_name<'v, S: ScalarValue>(arguments: &'v Arguments<'_, S>) -> Option<&'v str>
    ensures { option_map (λ n. n.now) result ≡ given_text (find (codes "name") (view_arguments S.shown arguments.now)) }
{
    match arguments.get_input_value("name") {
        Some(value) => text_of(&value.item),
        None => None,
    }
}

/// The text that it is.
#[tactic(auto, unfolding(graphql_spec::specs::Introspection::given_text, graphql_spec::specs::Shown::shown_text))]
fn text_of<S: ScalarValue>(value: &InputValue<S>) -> Option<&str>
    ensures { option_map (λ n. n.now) result ≡ given_text (Some (meaning (view_input S.shown value.now))) }
{
    match value {
        InputValue::Scalar(scalar) => scalar.try_to_str(),
        InputValue::Null => None,
        InputValue::Enum(_) => None,
        InputValue::Variable(_) => None,
        InputValue::List(_) => None,
        InputValue::Object(_) => None,
    }
}
