//! The values of an operation's variables (CoerceVariableValues, section 6.1.2 of the Specification).

ghost use Rattle.std.specs.Prelude.{◌≡◌, IfOk, OnOk, cond, map, option_map};
ghost use Rattle.std.specs.Str.{bytes_eq};
ghost use Rattle.graphql_spec.specs.Shown.{Name};
ghost use Rattle.graphql_spec.specs.Documents.{variables_of};
ghost use Rattle.graphql_spec.specs.Requests as requests;
ghost use Rattle.graphql_spec.specs.Requests.{coerced_variables, holds_variable, item_of, value_or};
ghost use Rattle.juniper_syntax.specs.DocumentView.{view_operation, view_variable};
ghost use Rattle.juniper_syntax.specs.InputView.{view_input, view_variables};
ghost use Rattle.juniper_rules.specs.GivenView.{view_given_values};

use juniper_language::{
    DefinedVariable, InputValue, Operation, ScalarValue, Span, Spanning, Variables,
};
use juniper_rules::Given;
use std::alloc::{AllocError, Global};

/// The first variable that the operation defines and whose given value holds a variable.
pub(crate) fn first_not_constant<'a, S: ScalarValue>(
    operation: &Spanning<Operation<'a, S>, Span>,
    given: &Given<'_, S>,
) -> Option<&'a str>
    ensures { option_map (λ n. n.now) result ≡ requests.first_not_constant (variables_of (view_operation S.shown operation.now))
        (view_given_values S.shown given.now) }
{
    first_inconstant(Operation::defined_variables(operation), given)
}

/// The first of these variables whose given value holds a variable.
#[tactic(auto, unfolding(graphql_spec::specs::Requests::first_not_constant))]
fn first_inconstant<'a, S: ScalarValue>(
    defined: &[DefinedVariable<'a, S>],
    given: &Given<'_, S>,
) -> Option<&'a str>
    ensures { option_map (λ n. n.now) result ≡ requests.first_not_constant (map (view_variable S.shown) defined.now) (view_given_values S.shown given.now) }
{
    for variable in defined {
        if is_inconstant(given, variable.0.item) {
            return Some(variable.0.item);
        }
    }
    None
}

/// Whether a variable stands in the value that is given for the name.
#[tactic(auto, unfolding(graphql_spec::specs::Requests::holds_variable))]
fn is_inconstant<S: ScalarValue>(given: &Given<'_, S>, name: &str) -> bool
    ensures { result ≡ holds_variable (view_given_values S.shown given.now name.now) }
{
    match given.get(name) {
        Some(value) => !value.is_const(),
        None => false,
    }
}

/// The values of the variables that an operation defines: the given one, else the default, else none. An error where memory
/// is refused.
pub(crate) fn coerce_variables<S: ScalarValue>(
    alloc: Global,
    operation: &Spanning<Operation<'_, S>, Span>,
    variables: &Variables<S>,
) -> Result<Variables<S>, AllocError>
    ensures { IfOk result (λ made. view_variables S.shown made ≡ coerced_variables (variables_of (view_operation S.shown operation.now))
        (view_variables S.shown variables.now)) }
{
    let given = Given::new(alloc, operation, variables)?;
    let values = values_of(alloc, Operation::defined_variables(operation), &given)?;
    Ok(values)
}

/// The values of these variables; the first definition of a name decides.
fn values_of<S: ScalarValue>(
    alloc: Global,
    defined: &[DefinedVariable<'_, S>],
    given: &Given<'_, S>,
) -> Result<Variables<S>, AllocError>
    ensures { IfOk result (λ made. view_variables S.shown made ≡ coerced_variables (map (view_variable S.shown) defined.now)
        (view_given_values S.shown given.now)) }
{
    let mut made = Variables::with_capacity(alloc, defined.len())?;
    for index in 0..defined.len() {
        let variable = &defined[defined.len() - 1 - index];
        put_value(alloc, &mut made, variable, given)?;
    }
    Ok(made)
}

/// Puts in what a variable has in place of what a later definition of its name has.
fn put_value<S: ScalarValue>(
    alloc: Global,
    made: &mut Variables<S>,
    variable: &DefinedVariable<'_, S>,
    given: &Given<'_, S>,
) -> Result<(), AllocError>
    ensures { OnOk result ((n : Name) → view_variables S.shown made.new n ≡ cond (bytes_eq n (view_variable S.shown variable.now).name.item)
        (value_or (view_given_values S.shown given.now n) (item_of (view_variable S.shown variable.now).default)) (view_variables S.shown made.old n)) }
{
    match value_of(given, variable) {
        Some(value) => {
            let name = String::from_str(alloc, variable.0.item)?;
            let copy = value.try_clone(alloc)?;
            drop(made.insert(name, copy)?);
            Ok(())
        }
        None => {
            drop(made.remove(variable.0.item));
            Ok(())
        }
    }
}

/// The given value of a variable, else its default.
#[tactic(auto, unfolding(graphql_spec::specs::Requests::value_or, graphql_spec::specs::Requests::item_of))]
fn value_of<'b, S: ScalarValue>(
    given: &'b Given<'_, S>,
    variable: &'b DefinedVariable<'_, S>,
) -> Option<&'b InputValue<S>>
    ensures { option_map (λ v. view_input S.shown v.now) result ≡ value_or (view_given_values S.shown given.now (view_variable S.shown variable.now).name.item)
        (item_of (view_variable S.shown variable.now).default) }
{
    match given.get(variable.0.item) {
        Some(value) => Some(value),
        None => match &variable.1.default_value {
            Some(value) => Some(&value.item),
            None => None,
        },
    }
}
