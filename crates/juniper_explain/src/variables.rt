//! The variables of an operation: KnownTypeNames, VariablesAreInputTypes and DefaultValuesOfCorrectType (sections 2.11, 5.8.2 and
//! 5.6.1 of the Specification).

ghost use Rattle.std.specs.Prelude.{◌≡◌, ◌++◌, IfOk, OnOk, [], codes, map, string_bytes};
ghost use Rattle.std.specs.List.{flat_map};
ghost use Rattle.graphql_spec.specs.Display.{display};
ghost use Rattle.graphql_spec.specs.Types.{type_text};
ghost use Rattle.graphql_spec.specs.Written.{defined_variables};
ghost use Rattle.juniper_syntax.specs.Positions.{view_spanning};
ghost use Rattle.juniper_schema.specs.SchemaView.{view_schema};
ghost use Rattle.juniper_syntax.specs.DocumentView.{view_definition, view_variable};
ghost use Rattle.juniper_syntax.specs.InputView.{view_input};
ghost use Rattle.juniper_syntax.specs.TypeView.{view_type};
ghost use Rattle.juniper_written.specs.WrittenView.{view_variables};
ghost use Rattle.juniper_explain.specs.Adding.{Adds};
ghost use Rattle.juniper_explain.specs.Nodes.{misfit, other_variable, unknown_type, wrong_default};
ghost use Rattle.juniper_explain.specs.Words.{type_word};

use crate::conditions::explain_type;
use crate::explanation::{Explanation, add};
use crate::rule::Rule;
use juniper_schema::SchemaType;
use juniper_syntax::{
    DefinedVariable, Definition, InputValue, ScalarValue, Span, Spanning, Type, VariableDefinitions,
};
use juniper_type_rules::owned_type;
use std::alloc::{AllocError, Global};

/// The variables that a definition defines.
#[tactic(auto, unfolding(graphql_spec::specs::Written::defined_variables, graphql_spec::specs::Documents::variables_of))]
pub(crate) fn variables_of<'v, 'a, S: ScalarValue>(
    definition: &'v Definition<'a, S>,
) -> &'v [DefinedVariable<'a, S>]
    ensures { map (view_variable S.shown) result.now ≡ defined_variables (view_definition S.shown definition.now) }
{
    match definition {
        Definition::Operation(operation) => listed(&operation.item.variable_definitions),
        Definition::Fragment(_) => no_variables(definition),
    }
}

/// No variables.
fn no_variables<'v, 'a, S: ScalarValue>(
    _definition: &'v Definition<'a, S>,
) -> &'v [DefinedVariable<'a, S>]
    ensures { result.now ≡ [] }
{
    &[]
}

/// The variables of a list, where there is one.
pub(crate) fn listed<'v, 'a, S: ScalarValue>(
    variables: &'v Option<Spanning<VariableDefinitions<'a, S>, Span>>,
) -> &'v [DefinedVariable<'a, S>]
    ensures { map (view_variable S.shown) result.now ≡ view_variables S.shown variables.now }
{
    match variables {
        Some(variables) => variables.item.items.as_slice(),
        None => none_listed(variables),
    }
}

/// No variables.
fn none_listed<'v, 'a, S: ScalarValue>(
    _variables: &'v Option<Spanning<VariableDefinitions<'a, S>, Span>>,
) -> &'v [DefinedVariable<'a, S>]
    ensures { result.now ≡ [] }
{
    &[]
}

/// Explains the variables at whose types' innermost names nothing is declared.
pub(crate) fn explain_unknown_variables<S: ScalarValue>(
    alloc: Global,
    schema: &SchemaType<S>,
    variables: &[DefinedVariable<'_, S>],
    explanations: &mut Vec<Explanation>,
) -> Result<(), AllocError>
    ensures { OnOk result (Adds explanations.old.items explanations.new.items
        (flat_map (λ v. unknown_type (view_schema S.shown schema.now) (type_word v)) (map (view_variable S.shown) variables.now))) }
{
    for variable in variables {
        explain_unknown_variable(alloc, schema, variable, explanations)?;
    }
    Ok(())
}

/// Explains a variable at whose type's innermost name nothing is declared.
fn explain_unknown_variable<S: ScalarValue>(
    alloc: Global,
    schema: &SchemaType<S>,
    variable: &DefinedVariable<'_, S>,
    explanations: &mut Vec<Explanation>,
) -> Result<(), AllocError>
    ensures { OnOk result (Adds explanations.old.items explanations.new.items
        (unknown_type (view_schema S.shown schema.now) (type_word (view_variable S.shown variable.now)))) }
{
    let reference = &variable.1.var_type;
    let word = Spanning::new(reference.span, reference.item.innermost_name());
    explain_type(alloc, schema, &word, explanations)
}

/// Explains the variables that are of no scalar, enum or input object.
pub(crate) fn explain_other_variables<S: ScalarValue>(
    alloc: Global,
    schema: &SchemaType<S>,
    variables: &[DefinedVariable<'_, S>],
    explanations: &mut Vec<Explanation>,
) -> Result<(), AllocError>
    ensures { OnOk result (Adds explanations.old.items explanations.new.items
        (flat_map (other_variable (view_schema S.shown schema.now)) (map (view_variable S.shown) variables.now))) }
{
    for variable in variables {
        explain_other_variable(alloc, schema, variable, explanations)?;
    }
    Ok(())
}

/// Explains a variable that is of no scalar, enum or input object.
#[tactic(auto, unfolding(crate::specs::Nodes::other_variable, crate::specs::Explanations::found))]
fn explain_other_variable<S: ScalarValue>(
    alloc: Global,
    schema: &SchemaType<S>,
    variable: &DefinedVariable<'_, S>,
    explanations: &mut Vec<Explanation>,
) -> Result<(), AllocError>
    ensures { OnOk result (Adds explanations.old.items explanations.new.items
        (other_variable (view_schema S.shown schema.now) (view_variable S.shown variable.now))) }
{
    let reference = &variable.1.var_type.item;
    if schema.is_input(reference.innermost_name()) {
        return Ok(());
    }
    let message = other_text(alloc, variable.0.item, reference)?;
    add(
        explanations,
        Rule::VariablesAreInputTypes,
        variable.0.span.start,
        message,
    )
}

/// What is said of such a variable.
fn other_text(alloc: Global, name: &str, reference: &Type<&str>) -> Result<String, AllocError>
    ensures { IfOk result (λ t. string_bytes t ≡ codes "Variable `$" ++ (name.now ++ (codes "` is of `"
        ++ (type_text (view_type (λ n. n.now) reference.now) ++ codes "`, which is no input type")))) }
{
    format!(in alloc; "Variable `${name}` is of `{reference}`, which is no input type")
}

/// Explains the defaults that do not fit their variables' types.
pub(crate) fn explain_defaults<S: ScalarValue>(
    alloc: Global,
    schema: &SchemaType<S>,
    variables: &[DefinedVariable<'_, S>],
    explanations: &mut Vec<Explanation>,
) -> Result<(), AllocError>
    ensures { OnOk result (Adds explanations.old.items explanations.new.items
        (flat_map (λ v. wrong_default (view_schema S.shown schema.now) v v.default) (map (view_variable S.shown) variables.now))) }
{
    for variable in variables {
        explain_default(alloc, schema, variable, explanations)?;
    }
    Ok(())
}

/// Explains a default that does not fit its variable's type.
fn explain_default<S: ScalarValue>(
    alloc: Global,
    schema: &SchemaType<S>,
    variable: &DefinedVariable<'_, S>,
    explanations: &mut Vec<Explanation>,
) -> Result<(), AllocError>
    ensures { OnOk result (Adds explanations.old.items explanations.new.items
        (wrong_default (view_schema S.shown schema.now) (view_variable S.shown variable.now) (view_variable S.shown variable.now).default)) }
{
    match &variable.1.default_value {
        Some(value) => {
            let reference = owned_type(alloc, &variable.1.var_type.item)?;
            let name = variable.0.item;
            explain_misfit(alloc, schema, name, value, &reference, explanations)
        }
        None => Ok(()),
    }
}

/// Explains a default that does not fit the type of the variable of a name.
#[tactic(auto, unfolding(crate::specs::Nodes::misfit, crate::specs::Explanations::found))]
fn explain_misfit<S: ScalarValue>(
    alloc: Global,
    schema: &SchemaType<S>,
    name: &str,
    value: &Spanning<InputValue<S>, Span>,
    reference: &Type<String>,
    explanations: &mut Vec<Explanation>,
) -> Result<(), AllocError>
    ensures { OnOk result (Adds explanations.old.items explanations.new.items
        (misfit (view_schema S.shown schema.now) name.now (view_spanning (view_input S.shown) value.now) (view_type (λ n. string_bytes n) reference.now))) }
{
    if schema.fits(&value.item, reference, false) {
        return Ok(());
    }
    let message = default_text(alloc, &value.item, name, reference)?;
    add(
        explanations,
        Rule::DefaultValuesOfCorrectType,
        value.span.start,
        message,
    )
}

/// What is said of such a default.
pub(crate) fn default_text<S: ScalarValue>(
    alloc: Global,
    value: &InputValue<S>,
    name: &str,
    reference: &Type<String>,
) -> Result<String, AllocError>
    ensures { IfOk result (λ t. string_bytes t ≡ codes "Default `" ++ (display (view_input S.shown value.now) ++ (codes "` of `$"
        ++ (name.now ++ (codes "` is no `" ++ (type_text (view_type (λ n. string_bytes n) reference.now) ++ codes "`")))))) }
{
    format!(in alloc; "Default `{value}` of `${name}` is no `{reference}`")
}
