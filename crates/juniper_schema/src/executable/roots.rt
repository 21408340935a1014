//! The root types of a schema (section 3.3.1 of the Specification).

ghost use Rattle.std.specs.Prelude.{◌≡◌};
ghost use Rattle.graphql_spec.specs.Executable as spec;
ghost use Rattle.graphql_spec.specs.Fields as fields;
ghost use Rattle.juniper_schema.specs.SchemaView.{view_schema};

use crate::schema::SchemaType;
use juniper_syntax::ScalarValue;

/// Whether the query type is an object, and the mutation type, where there is one, another object (3.3.1).
#[tactic(auto, unfolding(graphql_spec::specs::Executable::roots_are_objects))]
pub fn roots_are_objects<S: ScalarValue>(schema: &SchemaType<S>) -> bool
    ensures { result ≡ spec.roots_are_objects (view_schema S.shown schema.now) }
{
    is_object(schema, schema.query_name()) && mutation_is_apart(schema)
}

/// Whether the mutation type, where there is one, is an object and not the query type.
#[tactic(auto, unfolding(graphql_spec::specs::Executable::mutation_is_apart))]
fn mutation_is_apart<S: ScalarValue>(schema: &SchemaType<S>) -> bool
    ensures { result ≡ spec.mutation_is_apart (view_schema S.shown schema.now) (view_schema S.shown schema.now).mutation }
{
    match &schema.mutation_name {
        Some(name) => is_object(schema, name.as_str()) && name.as_str() != schema.query_name(),
        None => true,
    }
}

/// Whether the entry of this name is an object (3.6).
#[tactic(auto, unfolding(graphql_spec::specs::Fields::is_object))]
pub fn is_object<S: ScalarValue>(schema: &SchemaType<S>, name: &str) -> bool
    ensures { result ≡ fields.is_object (fields.entry_named (view_schema S.shown schema.now) name.now) }
{
    match schema.entry(name) {
        Some(meta) => meta.is_object(),
        None => false,
    }
}
