//! KnownTypeNames: the types of conditions and variables are declared (sections 2.11 and 5.5.1.2 of the Specification).

ghost use Rattle.std.specs.Prelude.{◌≡◌, ◌++◌, map};
ghost use Rattle.std.specs.List.{list_any};
ghost use Rattle.std.specs.Option.{is_none};
ghost use Rattle.graphql_spec.specs.Fields.{type_named};
ghost use Rattle.graphql_spec.specs.Rules.{variable_types};
ghost use Rattle.graphql_spec.specs.Types.{innermost};
ghost use Rattle.juniper_schema.specs.SchemaView.{view_schema};
ghost use Rattle.juniper_syntax.specs.DocumentView.{view_definition};
ghost use Rattle.juniper_written.specs.WrittenView.{view_variables, view_written};

use juniper_schema::SchemaType;
use juniper_syntax::{Definition, ScalarValue, Span, Spanning, VariableDefinitions};
use juniper_written::Written;

/// Whether nothing is declared at the name in a type condition, of those that are written in a definition, or at the
/// innermost name of the type of one of its variables.
pub fn has_unknown_type<S: ScalarValue>(
    schema: &SchemaType<S>,
    written: &Written<'_, '_, S>,
    definition: &Definition<'_, S>,
) -> bool
    ensures { result ≡ list_any (λ n. is_none (type_named (view_schema S.shown schema.now) n))
        ((view_written S.shown written.now).conditions ++ variable_types (view_definition S.shown definition.now)) }
{
    if has_unknown_condition(schema, written) {
        return true;
    }
    match definition {
        Definition::Operation(operation) => {
            has_unknown_variable(schema, &operation.item.variable_definitions)
        }
        Definition::Fragment(_) => false,
    }
}

/// Whether nothing is declared at the name in a type condition.
fn has_unknown_condition<S: ScalarValue>(
    schema: &SchemaType<S>,
    written: &Written<'_, '_, S>,
) -> bool
    ensures { result ≡ list_any (λ n. is_none (type_named (view_schema S.shown schema.now) n)) (view_written S.shown written.now).conditions }
{
    for index in 0..written.conditions.len() {
        let condition = written.conditions[index];
        if schema.is_unknown(condition) {
            return true;
        }
    }
    false
}

/// Whether nothing is declared at the innermost name of the type of a variable.
fn has_unknown_variable<S: ScalarValue>(
    schema: &SchemaType<S>,
    variables: &Option<Spanning<VariableDefinitions<'_, S>, Span>>,
) -> bool
    ensures { result ≡ list_any (λ n. is_none (type_named (view_schema S.shown schema.now) n))
        (map (λ v. innermost v.of_type.item) (view_variables S.shown variables.now)) }
{
    match variables {
        Some(variables) => {
            for variable in &variables.item.items {
                let name = variable.1.var_type.item.innermost_name();
                if schema.is_unknown(name) {
                    return true;
                }
            }
            false
        }
        None => false,
    }
}
