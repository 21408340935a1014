//! NoUndefinedVariables: an operation defines each variable that it uses, in itself or in fragments that it reaches
//! (section 5.8.3 of the Specification).

ghost use Rattle.std.specs.Prelude.{◌≡◌, IfOk};
ghost use Rattle.std.specs.List.{list_any};
ghost use Rattle.graphql_spec.specs.Documents.{Document};
ghost use Rattle.graphql_spec.specs.Rules as rules;
ghost use Rattle.juniper_syntax.specs.DocumentView.{view_definition};
ghost use Rattle.juniper_schema.specs.SchemaView.{view_schema};
ghost use Rattle.juniper_written.specs.WrittenView.{view_names};
ghost use Rattle.juniper_type_rules.specs.UsesView.{AreUsesOfParts, definition_at, is_unknown, uses_unknown, view_used_at};

use crate::defined::{VariablesByName, variables_by_name};
use crate::roots::has_root;
use crate::uses::Used;
use juniper_schema::SchemaType;
use juniper_syntax::{Definition, ScalarValue};
use std::alloc::{AllocError, Global};

/// Whether a definition is an operation that can be executed and uses, in itself or in fragments that it reaches, a
/// variable that it does not define. `parts` is what an operation and the fragments that it reaches use. An error where
/// memory is refused.
pub fn uses_undefined<S: ScalarValue>(
    alloc: Global,
    schema: &SchemaType<S>,
    definition: &Definition<'_, S>,
    parts: &Vec<&Used<'_>>,
) -> Result<bool, AllocError>
    ensures { IfOk result (λ b. (d : Document) →
        AreUsesOfParts (view_schema S.shown schema.now) parts.now.items d (view_definition S.shown definition.now) →
        b ≡ rules.uses_undefined (view_schema S.shown schema.now) d (view_definition S.shown definition.now)) }
{
    match definition {
        Definition::Operation(operation) => {
            if !has_root(schema, operation.item.operation_type) {
                return Ok(false);
            }
            let defined = variables_by_name(alloc, &operation.item.variable_definitions)?;
            Ok(lacks_in_parts(&defined, parts))
        }
        Definition::Fragment(_) => Ok(false),
    }
}

/// Whether one of the parts uses a variable that is not defined.
fn lacks_in_parts<S: ScalarValue>(
    defined: &VariablesByName<'_, '_, S>,
    parts: &Vec<&Used<'_>>,
) -> bool
    ensures { result ≡ list_any (uses_unknown (definition_at S.shown defined.now)) (view_used_at parts.now.items) }
{
    for index in 0..parts.len() {
        if lacks_one(defined, &parts[index].names) {
            return true;
        }
    }
    false
}

/// Whether one of the names is not defined.
fn lacks_one<S: ScalarValue>(defined: &VariablesByName<'_, '_, S>, names: &Vec<&str>) -> bool
    ensures { result ≡ list_any (is_unknown (definition_at S.shown defined.now)) (view_names names.now.items) }
{
    for index in 0..names.len() {
        if is_undefined(defined, names[index]) {
            return true;
        }
    }
    false
}

/// Whether the name is not defined.
fn is_undefined<S: ScalarValue>(defined: &VariablesByName<'_, '_, S>, name: &str) -> bool
    ensures { result ≡ is_unknown (definition_at S.shown defined.now) name.now }
{
    !defined.contains(name)
}
