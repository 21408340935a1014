//! FragmentsOnCompositeTypes: type conditions are objects, interfaces or unions (section 5.5.1.3 of the Specification).

ghost use Rattle.std.specs.Prelude.{◌≡◌, not};
ghost use Rattle.std.specs.List.{list_any};
ghost use Rattle.graphql_spec.specs.Fields.{is_composite, type_named};
ghost use Rattle.juniper_schema.specs.SchemaView.{view_schema};
ghost use Rattle.juniper_written.specs.WrittenView.{view_written};

use juniper_schema::SchemaType;
use juniper_syntax::ScalarValue;
use juniper_written::Written;

/// Whether a type condition is no object, interface or union.
pub fn has_other_condition<S: ScalarValue>(
    schema: &SchemaType<S>,
    written: &Written<'_, '_, S>,
) -> bool
    ensures { result ≡ list_any (λ n. not (is_composite (type_named (view_schema S.shown schema.now) n))) (view_written S.shown written.now).conditions }
{
    for index in 0..written.conditions.len() {
        let condition = written.conditions[index];
        if !schema.is_composite(condition) {
            return true;
        }
    }
    false
}
