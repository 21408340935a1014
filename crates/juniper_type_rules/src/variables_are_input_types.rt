//! VariablesAreInputTypes: variables are of scalars, enums and input objects (section 5.8.2 of the Specification).

ghost use Rattle.std.specs.Prelude.{◌≡◌, map, not};
ghost use Rattle.std.specs.List.{list_any};
ghost use Rattle.graphql_spec.specs.Fields.{is_input, type_named};
ghost use Rattle.graphql_spec.specs.Rules as rules;
ghost use Rattle.graphql_spec.specs.Types.{innermost};
ghost use Rattle.juniper_schema.specs.SchemaView.{view_schema};
ghost use Rattle.juniper_syntax.specs.DocumentView.{view_definition};
ghost use Rattle.juniper_written.specs.WrittenView.{view_variables};

use juniper_schema::SchemaType;
use juniper_syntax::{Definition, ScalarValue, Span, Spanning, VariableDefinitions};

/// Whether the innermost type of a variable is no scalar, enum or input object.
pub fn has_other_variable<S: ScalarValue>(
    schema: &SchemaType<S>,
    definition: &Definition<'_, S>,
) -> bool
    ensures { result ≡ rules.has_other_variable (view_schema S.shown schema.now) (view_definition S.shown definition.now) }
{
    match definition {
        Definition::Operation(operation) => {
            has_other_type(schema, &operation.item.variable_definitions)
        }
        Definition::Fragment(_) => false,
    }
}

/// Whether one of the variables is of such a type.
fn has_other_type<S: ScalarValue>(
    schema: &SchemaType<S>,
    variables: &Option<Spanning<VariableDefinitions<'_, S>, Span>>,
) -> bool
    ensures { result ≡ list_any (λ n. not (is_input (type_named (view_schema S.shown schema.now) n)))
        (map (λ v. innermost v.of_type.item) (view_variables S.shown variables.now)) }
{
    match variables {
        Some(variables) => {
            for variable in &variables.item.items {
                let name = variable.1.var_type.item.innermost_name();
                if !schema.is_input(name) {
                    return true;
                }
            }
            false
        }
        None => false,
    }
}
