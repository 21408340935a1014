//! UniqueVariableNames: no two variables of an operation have one name (section 5.8.1 of the Specification).

ghost use Rattle.std.specs.Prelude.{◌≡◌, ◌++◌, IfOk, OnOk, map};
ghost use Rattle.graphql_spec.specs.Rules as rules;
ghost use Rattle.graphql_spec.specs.Written.{defined_variables};
ghost use Rattle.juniper_syntax.specs.DocumentView.{view_definition};
ghost use Rattle.juniper_written.specs.WrittenView.{view_names, view_variables};

use crate::repeats;
use juniper_syntax::{Definition, ScalarValue, Span, Spanning, VariableDefinitions};
use std::alloc::{AllocError, Global};

/// Whether two of the variables that a definition defines have one name. An error where memory is refused.
pub fn repeats_variable<S: ScalarValue>(
    alloc: Global,
    definition: &Definition<'_, S>,
) -> Result<bool, AllocError>
    ensures { IfOk result (λ b. b ≡ rules.repeats_variable (view_definition S.shown definition.now)) }
{
    match definition {
        Definition::Operation(operation) => {
            let names = variable_names(alloc, &operation.item.variable_definitions)?;
            let found = repeats(alloc, &names)?;
            Ok(found)
        }
        Definition::Fragment(_) => Ok(false),
    }
}

/// The names of variables.
fn variable_names<'a, S: ScalarValue>(
    alloc: Global,
    variables: &Option<Spanning<VariableDefinitions<'a, S>, Span>>,
) -> Result<Vec<&'a str>, AllocError>
    ensures { IfOk result (λ ns. view_names ns.items ≡ map (λ v. v.name.item) (view_variables S.shown variables.now)) }
{
    let mut names = Vec::new(alloc);
    match variables {
        Some(variables) => {
            for variable in &variables.item.items {
                names.push(variable.0.item)?;
            }
            Ok(names)
        }
        None => Ok(names),
    }
}
