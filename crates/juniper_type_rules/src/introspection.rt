//! Introspection, where it is disabled (section 4.2 of the Specification). The rule is this project's own.

ghost use Rattle.std.specs.Prelude.{◌≡◌};
ghost use Rattle.std.specs.List.{list_any};
ghost use Rattle.graphql_spec.specs.Rules as rules;
ghost use Rattle.graphql_spec.specs.Rules.{is_introspection};
ghost use Rattle.juniper_syntax.specs.DocumentView.{view_definition};
ghost use Rattle.juniper_schema.specs.SchemaView.{view_schema};
ghost use Rattle.juniper_written.specs.Parts.{parts_of};
ghost use Rattle.juniper_written.specs.WrittenView.{view_fields, view_written};

use crate::roots::has_root;
use juniper_schema::SchemaType;
use juniper_syntax::{Definition, ScalarValue};
use juniper_written::Written;

/// Whether introspection is disabled, and an operation that can be executed, or a fragment, selects `__schema` or
/// `__type` at any depth. What is written is that of the definition.
pub fn looks_at_schema<S: ScalarValue>(
    schema: &SchemaType<S>,
    disabled: bool,
    definition: &Definition<'_, S>,
    written: &Written<'_, '_, S>,
) -> bool
    ensures { view_written S.shown written.now ≡ parts_of (view_definition S.shown definition.now) →
        result ≡ rules.looks_at_schema (view_schema S.shown schema.now) disabled (view_definition S.shown definition.now) }
{
    if !disabled {
        return false;
    }
    can_look(schema, definition) && has_introspection(written)
}

/// Whether the definition is an operation that can be executed, or a fragment.
fn can_look<S: ScalarValue>(schema: &SchemaType<S>, definition: &Definition<'_, S>) -> bool
    ensures { result ≡ rules.can_look (view_schema S.shown schema.now) (view_definition S.shown definition.now) }
{
    match definition {
        Definition::Operation(operation) => has_root(schema, operation.item.operation_type),
        Definition::Fragment(_) => true,
    }
}

/// Whether one of the fields that are written is `__schema` or `__type`.
fn has_introspection<S: ScalarValue>(written: &Written<'_, '_, S>) -> bool
    ensures { result ≡ list_any (λ h. is_introspection h.name.item) (view_fields S.shown written.now.fields.items) }
{
    for index in 0..written.fields.len() {
        let field = written.fields[index];
        let name = field.item.name.item;
        if is_introspection(name) {
            return true;
        }
    }
    false
}

/// Whether the name is `__schema` or `__type`.
#[tactic(auto, unfolding(graphql_spec::specs::Rules::is_introspection))]
pub fn is_introspection(name: &str) -> bool
    ensures { result ≡ is_introspection name.now }
{
    name == "__schema" || name == "__type"
}
