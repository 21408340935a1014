//! DefaultValuesOfCorrectType: the default of a variable fits its type (section 5.6.1 of the Specification).

ghost use Rattle.std.specs.Prelude.{◌≡◌, IfOk};
ghost use Rattle.std.specs.List.{list_any};
ghost use Rattle.graphql_spec.specs.Rules as rules;
ghost use Rattle.juniper_schema.specs.SchemaView.{view_schema};
ghost use Rattle.juniper_syntax.specs.DocumentView.{view_definition, view_variable};
ghost use Rattle.juniper_type_rules.specs.SetTests.{has_misfit};
ghost use Rattle.juniper_written.specs.WrittenView.{view_variables};

use crate::owned_types::owned_type;
use juniper_schema::SchemaType;
use juniper_syntax::{
    Definition, ScalarValue, Span, Spanning, VariableDefinition, VariableDefinitions,
};
use std::alloc::{AllocError, Global};

/// Whether the default of a variable that a definition defines does not fit the variable's type. An error where memory is
/// refused.
pub fn has_wrong_default<S: ScalarValue>(
    alloc: Global,
    schema: &SchemaType<S>,
    definition: &Definition<'_, S>,
) -> Result<bool, AllocError>
    ensures { IfOk result (λ b. b ≡ rules.has_wrong_default (view_schema S.shown schema.now) (view_definition S.shown definition.now)) }
{
    match definition {
        Definition::Operation(operation) => {
            let found = has_misfit(alloc, schema, &operation.item.variable_definitions)?;
            Ok(found)
        }
        Definition::Fragment(_) => Ok(false),
    }
}

/// Whether one of the variables has a default that does not fit.
fn has_misfit<S: ScalarValue>(
    alloc: Global,
    schema: &SchemaType<S>,
    variables: &Option<Spanning<VariableDefinitions<'_, S>, Span>>,
) -> Result<bool, AllocError>
    ensures { IfOk result (λ b. b ≡ list_any (has_misfit (view_schema S.shown schema.now)) (view_variables S.shown variables.now)) }
{
    match variables {
        Some(variables) => {
            for variable in &variables.item.items {
                if is_misfit(alloc, schema, variable)? {
                    return Ok(true);
                }
            }
            Ok(false)
        }
        None => Ok(false),
    }
}

/// Whether the variable has a default that does not fit its type.
fn is_misfit<S: ScalarValue>(
    alloc: Global,
    schema: &SchemaType<S>,
    variable: &(Spanning<&str, Span>, VariableDefinition<'_, S>),
) -> Result<bool, AllocError>
    ensures { IfOk result (λ b. b ≡ has_misfit (view_schema S.shown schema.now) (view_variable S.shown variable.now)) }
{
    match &variable.1.default_value {
        Some(value) => {
            let reference = owned_type(alloc, &variable.1.var_type.item)?;
            Ok(!schema.fits(&value.item, &reference, false))
        }
        None => Ok(false),
    }
}
