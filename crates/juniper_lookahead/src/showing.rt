//! What look-ahead shows of a value.

ghost use Rattle.std.specs.Prelude.{◌≡◌, option_map};
ghost use Rattle.juniper_syntax.specs.InputView.{view_input};
ghost use Rattle.juniper_lookahead.specs.ShownValues.{shown_value, shown_unless_variable};
ghost use Rattle.juniper_lookahead.specs.ValueView.{view_look, view_lent_variables};

use crate::values::{LookAheadList, LookAheadObject, LookAheadValue};
use juniper_syntax::{InputValue, ScalarValue, Variables};

/// What is shown of a value, by the values of variables. Where these are not lent, a variable is null.
#[tactic(auto, using(juniper_syntax::proofs::Inputs::input_views, crate::proofs::ShownValues::shown_values), unfolding(crate::specs::ShownValues::shown_value, crate::specs::ShownValues::shown_unless_variable, crate::specs::ShownValues::replaced))]
pub(crate) fn shown_value<'a, S: ScalarValue>(
    value: &'a InputValue<S>,
    variables: Option<&'a Variables<S>>,
) -> LookAheadValue<'a, S>
    ensures { view_look S.shown result ≡ shown_value (view_lent_variables S.shown variables.entry) (view_input S.shown value.now) }
{
    match value {
        InputValue::Variable(name) => match given(variables, name.as_str()) {
            Some(given) => unless_variable(given, None),
            None => LookAheadValue::Null,
        },
        InputValue::Null => unless_variable(value, variables),
        InputValue::Scalar(_) => unless_variable(value, variables),
        InputValue::Enum(_) => unless_variable(value, variables),
        InputValue::List(_) => unless_variable(value, variables),
        InputValue::Object(_) => unless_variable(value, variables),
    }
}

/// The value of a variable, where the values are lent.
fn given<'a, S: ScalarValue>(
    variables: Option<&'a Variables<S>>,
    name: &str,
) -> Option<&'a InputValue<S>>
    ensures { option_map (λ v. view_input S.shown v.now) result ≡ view_lent_variables S.shown variables.entry name.now }
{
    match variables {
        Some(variables) => variables.get(name),
        None => None,
    }
}

/// What is shown of a value that is no variable; null of a variable.
#[tactic(auto, using(juniper_syntax::proofs::Inputs::input_views, crate::proofs::ShownValues::shown_values), unfolding(crate::specs::ShownValues::shown_value, crate::specs::ShownValues::shown_unless_variable, crate::specs::ShownValues::replaced))]
fn unless_variable<'a, S: ScalarValue>(
    value: &'a InputValue<S>,
    variables: Option<&'a Variables<S>>,
) -> LookAheadValue<'a, S>
    ensures { view_look S.shown result ≡ shown_unless_variable (view_lent_variables S.shown variables.entry) (view_input S.shown value.now) }
{
    match value {
        InputValue::Null => LookAheadValue::Null,
        InputValue::Scalar(scalar) => LookAheadValue::Scalar(scalar),
        InputValue::Enum(name) => LookAheadValue::Enum(name.as_str()),
        InputValue::Variable(_) => LookAheadValue::Null,
        InputValue::List(items) => LookAheadValue::List(LookAheadList {
            items: items.as_slice(),
            variables,
        }),
        InputValue::Object(fields) => LookAheadValue::Object(LookAheadObject {
            fields: fields.as_slice(),
            variables,
        }),
    }
}
