//! Which operations have a root type (section 3.3.1 of the Specification).

ghost use Rattle.std.specs.Prelude.{◌≡◌};
ghost use Rattle.std.specs.Option.{is_some};
ghost use Rattle.graphql_spec.specs.Placed.{root_type};
ghost use Rattle.juniper_syntax.specs.DocumentView.{view_kind};
ghost use Rattle.juniper_schema.specs.SchemaView.{view_schema};

use juniper_schema::SchemaType;
use juniper_syntax::{OperationType, ScalarValue};

/// Whether the schema has a root type for operations of this kind.
pub(crate) fn has_root<S: ScalarValue>(schema: &SchemaType<S>, kind: OperationType) -> bool
    ensures { result ≡ is_some (root_type (view_schema S.shown schema.now) (view_kind kind)) }
{
    match kind {
        OperationType::Query => true,
        OperationType::Mutation => schema.mutation_name().is_some(),
        OperationType::Subscription => false,
    }
}
